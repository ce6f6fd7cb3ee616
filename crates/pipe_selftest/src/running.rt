//! Running the three joins of a self-test.

ghost use Rattle.std.specs.Prelude.{◌≡◌, ◌≤◌, Err, IfOk, IfErr, OnOk, length, true};
ghost use Rattle.pipe_driver.specs.Within.{AllWithin};
ghost use Rattle.pipe_exec.specs.Evaluated.{PlanEndsWith, stops};
ghost use Rattle.pipe_exec.specs.Runs.{IsMemory, Stays};
ghost use Rattle.pipe_exec.specs.Sound.{IsSoundRun};
ghost use Rattle.pipe_schema.specs.Counts.{Counts, Rises};
ghost use Rattle.pipe_plan.specs.Plan.{plan_of};
ghost use Rattle.pipe_plan.specs.PlanRows.{rows_of};
ghost use Rattle.pipe_selftest.specs.Ends.{Ends, IsWithin};
ghost use Rattle.pipe_selftest.specs.Joins.{config, full_root, inner_root, left_root, plan_from};
ghost use Rattle.pipe_selftest.specs.Lines.{row_count};

use crate::arena::selftest_arena;
use pipe_exec::run_plan;
use pipe_plan::{Arena, PipeConfig, PipeError};
use pipe_schema::{Gate, StopCheck};
use std::alloc::Global;
use std::thread::Threads;

/// How the joins are run.
const CONFIG: PipeConfig = PipeConfig {
    workers: 4,
    chunk_rows: 1000,
    row_limit: 4_294_967_294,
};

/// How many rows each join has.
#[derive(Clone, Copy, Debug)]
pub struct JoinCounts {
    pub inner: usize,
    pub left: usize,
    pub full: usize,
}

/// How many rows a plan has.
#[tactic(auto, using(crate::proofs::Counting::same_length, crate::proofs::Ending::sound_ends))]
fn count_rows<R: Threads + Sync, C: StopCheck, G: Gate + Sync>(
    rt: &R,
    alloc: Global,
    arena: &Arena,
    root: u32,
    stop: &mut C,
    gate: &G,
) -> Result<usize, PipeError>
    requires sound { IsSoundRun (plan_of arena.now) root config }
    ensures rows { IfOk result (λ n. n ≡ length (rows_of (plan_of arena.now) root)) }
    ensures within { OnOk result (AllWithin config.row_limit (plan_of arena.now) root) }
    ensures err { IfErr result (PlanEndsWith config.row_limit (plan_of arena.now) root) }
    ensures asked { OnOk result (Rises (C.asked stop.old) (C.asked stop.new)) }
    ensures yes { Counts (stops result) (C.yes stop.old) (C.yes stop.new) }
    ensures last { result ≡ Err PipeError.Stopped → C.last_answer stop.new ≡ true }
    ensures complete { AllWithin config.row_limit (plan_of arena.now) root
        → Stays (C.yes stop.old) (C.yes stop.new) → IfErr result IsMemory }
{
    let answer = run_plan(rt, alloc, arena, root, &CONFIG, stop, gate)?;
    Ok(answer.frame.height())
}

/// How many rows each of the three joins has, which are run one after another.
#[tactic(auto, using(crate::proofs::Counting::counts_on, crate::proofs::Counting::rises_on, crate::proofs::Counting::stays_on, crate::proofs::Ending::ends_at))]
fn count_joins<R: Threads + Sync, C: StopCheck, G: Gate + Sync>(
    rt: &R,
    alloc: Global,
    arena: &Arena,
    stop: &mut C,
    gate: &G,
) -> Result<JoinCounts, PipeError>
    requires inner { IsSoundRun (plan_of arena.now) inner_root config }
    requires left { IsSoundRun (plan_of arena.now) left_root config }
    requires full { IsSoundRun (plan_of arena.now) full_root config }
    ensures inner { let plan = plan_of arena.now in
        IfOk result (λ counts. counts.inner ≡ length (rows_of plan inner_root)) }
    ensures left { let plan = plan_of arena.now in
        IfOk result (λ counts. counts.left ≡ length (rows_of plan left_root)) }
    ensures full { let plan = plan_of arena.now in
        IfOk result (λ counts. counts.full ≡ length (rows_of plan full_root)) }
    ensures within { OnOk result (IsWithin (plan_of arena.now)) }
    ensures err { IfErr result (Ends (plan_of arena.now)) }
    ensures asked { OnOk result (Rises (C.asked stop.old) (C.asked stop.new)) }
    ensures yes { Counts (stops result) (C.yes stop.old) (C.yes stop.new) }
    ensures last { result ≡ Err PipeError.Stopped → C.last_answer stop.new ≡ true }
    ensures complete { IsWithin (plan_of arena.now)
        → Stays (C.yes stop.old) (C.yes stop.new) → IfErr result IsMemory }
{
    let inner = count_rows(rt, alloc, arena, 2, stop, gate)?;
    let left = count_rows(rt, alloc, arena, 5, stop, gate)?;
    let full = count_rows(rt, alloc, arena, 8, stop, gate)?;
    Ok(JoinCounts { inner, left, full })
}

/// Runs the inner, the left and the full join of a self-test, one after another, and tells how many rows each has.
/// `TooMany` where a node has more rows than the limit; `Stopped` exactly where the stop check says yes; `Memory`.
#[tactic(auto, using(crate::proofs::Formed::sound, crate::proofs::Ending::ends_of, crate::proofs::Ending::within_of, crate::proofs::Ending::count_of))]
pub fn selftest<R: Threads + Sync, C: StopCheck, G: Gate + Sync>(
    rt: &R,
    alloc: Global,
    start: u64,
    rows: u32,
    stop: &mut C,
    gate: &G,
) -> Result<JoinCounts, PipeError>
    requires some { 1 ≤ rows }
    requires few { rows ≤ 1000000 }
    ensures inner { IfOk result (λ counts. counts.inner ≡ row_count inner_root start rows) }
    ensures left { IfOk result (λ counts. counts.left ≡ row_count left_root start rows) }
    ensures full { IfOk result (λ counts. counts.full ≡ row_count full_root start rows) }
    ensures within { OnOk result (IsWithin (plan_from start rows)) }
    ensures err { IfErr result (Ends (plan_from start rows)) }
    ensures asked { OnOk result (Rises (C.asked stop.old) (C.asked stop.new)) }
    ensures yes { Counts (stops result) (C.yes stop.old) (C.yes stop.new) }
    ensures last { result ≡ Err PipeError.Stopped → C.last_answer stop.new ≡ true }
    ensures complete { IsWithin (plan_from start rows)
        → Stays (C.yes stop.old) (C.yes stop.new) → IfErr result IsMemory }
{
    let arena = selftest_arena(alloc, start, rows)?;
    count_joins(rt, alloc, &arena, stop, gate)
}
