//! Running the join of a reconciliation.

ghost use Rattle.std.specs.Prelude.{◌≡◌, ◌≤◌, Err, IfErr, IfOk, OnOk, length, true};
ghost use Rattle.pipe_driver.specs.Within.{AllWithin};
ghost use Rattle.pipe_exec.specs.Evaluated.{PlanEndsWith, stops};
ghost use Rattle.pipe_exec.specs.Runs.{IsMemory, Stays};
ghost use Rattle.pipe_exec.specs.Sound.{IsSoundRun};
ghost use Rattle.pipe_schema.specs.Counts.{Counts, Rises};
ghost use Rattle.pipe_schema.specs.Rows.{Same};
ghost use Rattle.pipe_plan.specs.Config.{IsConfig};
ghost use Rattle.pipe_plan.specs.Plan.{plan_of};
ghost use Rattle.pipe_plan.specs.PlanRows.{rows_of};
ghost use Rattle.pipe_plan.specs.Schemas.{schema_of};
ghost use Rattle.pipe_recon.specs.JoinPlan.{join_fields, join_plan, join_root};

use pipe_column::BinaryColumn;
use pipe_exec::run_plan;
use pipe_frame::DataFrame;
use pipe_plan::{Arena, PipeConfig, PipeError};
use pipe_recon::join_arena;
use pipe_schema::{Gate, StopCheck};
use std::alloc::Global;
use std::thread::Threads;

/// The number of the join in its plan.
const JOIN: u32 = 2;

/// The rows of a plan's join.
#[tactic(auto, using(crate::proofs::Running::sound_ends))]
fn run_join<R: Threads + Sync, C: StopCheck, G: Gate + Sync>(
    rt: &R,
    alloc: Global,
    arena: &Arena,
    config: &PipeConfig,
    stop: &mut C,
    gate: &G,
) -> Result<DataFrame, PipeError>
    requires sound { IsSoundRun (plan_of arena.now) join_root config.now }
    ensures schema { let plan = plan_of arena.now in
        IfOk result (λ frame. frame.schema ≡ schema_of plan join_root) }
    ensures rows { let plan = plan_of arena.now in
        IfOk result (λ frame. Same frame.rows (rows_of plan join_root)) }
    ensures within { OnOk result (AllWithin config.now.row_limit (plan_of arena.now) join_root) }
    ensures err { IfErr result (PlanEndsWith config.now.row_limit (plan_of arena.now) join_root) }
    ensures asked { OnOk result (Rises (C.asked stop.old) (C.asked stop.new)) }
    ensures yes { Counts (stops result) (C.yes stop.old) (C.yes stop.new) }
    ensures last { result ≡ Err PipeError.Stopped → C.last_answer stop.new ≡ true }
    ensures complete { AllWithin config.now.row_limit (plan_of arena.now) join_root
        → Stays (C.yes stop.old) (C.yes stop.new) → IfErr result IsMemory }
{
    let answer = run_plan(rt, alloc, arena, JOIN, config, stop, gate)?;
    Ok(answer.into_frame())
}

/// The rows of the full join of two sides, by their codes.
#[tactic(auto, using(crate::proofs::Running::join_sound, crate::proofs::Running::join_ends, crate::proofs::Running::join_within, crate::proofs::Running::join_schema, crate::proofs::Running::join_rows))]
pub(crate) fn join_frame<R: Threads + Sync, C: StopCheck, G: Gate + Sync>(
    rt: &R,
    alloc: Global,
    lefts: BinaryColumn,
    rights: BinaryColumn,
    config: &PipeConfig,
    stop: &mut C,
    gate: &G,
) -> Result<DataFrame, PipeError>
    requires numbers { IsConfig config.now }
    requires few_left { length lefts ≤ 4294967294 }
    requires few_right { length rights ≤ 4294967294 }
    ensures schema { IfOk result (λ frame. frame.schema ≡ join_fields) }
    ensures rows { IfOk result (λ frame.
        Same frame.rows (rows_of (join_plan lefts rights) join_root)) }
    ensures within { OnOk result
        (AllWithin config.now.row_limit (join_plan lefts rights) join_root) }
    ensures err { IfErr result
        (PlanEndsWith config.now.row_limit (join_plan lefts rights) join_root) }
    ensures asked { OnOk result (Rises (C.asked stop.old) (C.asked stop.new)) }
    ensures yes { Counts (stops result) (C.yes stop.old) (C.yes stop.new) }
    ensures last { result ≡ Err PipeError.Stopped → C.last_answer stop.new ≡ true }
    ensures complete { AllWithin config.now.row_limit (join_plan lefts rights) join_root
        → Stays (C.yes stop.old) (C.yes stop.new) → IfErr result IsMemory }
{
    let arena = join_arena(alloc, lefts, rights)?;
    run_join(rt, alloc, &arena, config, stop, gate)
}
