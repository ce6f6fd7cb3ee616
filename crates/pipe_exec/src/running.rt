//! Running a plan.

ghost use Rattle.std.specs.Prelude.{◌≡◌, Err, IfOk, IfErr, OnOk, true};
ghost use Rattle.pipe_schema.specs.Counts.{Counts, Rises};
ghost use Rattle.pipe_plan.specs.Plan.{plan_of};
ghost use Rattle.pipe_plan.specs.Schemas.{schema_of};
ghost use Rattle.pipe_driver.specs.Within.{AllWithin};
ghost use Rattle.pipe_rows.specs.Fnv.{fnv1a};
ghost use Rattle.pipe_exec.specs.Evaluated.{HasRowsOf, stops};
ghost use Rattle.pipe_exec.specs.Journals.{HasJournal, KeptPace};
ghost use Rattle.pipe_exec.specs.Runs.{IsMemory, RunCauses, Stays};
ghost use Rattle.pipe_exec.specs.Sound.{IsSoundRun};

use crate::answer::{Journal, RunAnswer};
use crate::check::check_job;
use crate::frame::plan_frame;
use crate::numbers::context_of;
use pipe_plan::{Arena, PipeConfig, PipeError};
use pipe_rows::{Fnv, KeyHasher};
use pipe_schema::{Gate, List, StopCheck};
use std::alloc::Global;
use std::thread::Threads;

/// The rows of a plan, by a hasher of the caller's own. The workers are threads: each takes chunks of rows through the
/// plan's pipelines, one by one, behind the gate, and flushes partitions of joins that mark, behind it too. The journal
/// has what they took and flushed, and which sides were closed. To each question of the stop check they take at most
/// four chunks each. First what `check_job` refuses is refused. Then `TooMany` where a node under the root has more rows
/// than the limit; `Stopped` exactly where the stop check says yes; `Memory`.
pub fn run_plan_with<R: Threads + Sync, H: KeyHasher, C: StopCheck, G: Gate + Sync>(
    rt: &R,
    alloc: Global,
    arena: &Arena,
    root: u32,
    config: &PipeConfig,
    hasher: H,
    stop: &mut C,
    gate: &G,
) -> Result<RunAnswer, PipeError>
    ensures sound { OnOk result (IsSoundRun (plan_of arena.now) root config.now) }
    ensures within { OnOk result (AllWithin config.now.row_limit (plan_of arena.now) root) }
    ensures schema { let plan = plan_of arena.now in
        IfOk result (λ answer. answer.frame.schema ≡ schema_of plan root) }
    ensures rows { IfOk result (λ answer. HasRowsOf (plan_of arena.now) root answer.frame.rows) }
    ensures journal { IfOk result
        (HasJournal (plan_of arena.now) root (H.hash_of hasher) config.now.workers) }
    ensures paced { IfOk result (KeptPace config.now.workers config.now.chunk_rows
        (C.asked stop.old) (C.asked stop.new)) }
    ensures err { IfErr result (RunCauses (plan_of arena.now) root config.now) }
    ensures asked { OnOk result (Rises (C.asked stop.old) (C.asked stop.new)) }
    ensures yes { Counts (stops result) (C.yes stop.old) (C.yes stop.new) }
    ensures last { result ≡ Err PipeError.Stopped → C.last_answer stop.new ≡ true }
    ensures complete { IsSoundRun (plan_of arena.now) root config.now
        → AllWithin config.now.row_limit (plan_of arena.now) root
        → Stays (C.yes stop.old) (C.yes stop.new) → IfErr result IsMemory }
{
    let plan = check_job(alloc, arena, root, config)?;
    let context = context_of(config);
    let mut events = Vec::new(alloc);
    let frame = plan_frame(rt, alloc, &plan, context, hasher, &mut events, stop, gate)?;
    let journal = Journal {
        events: List::from_vec(events),
    };
    Ok(RunAnswer { frame, journal })
}

/// The rows of a plan: `run_plan_with` under `Fnv`.
pub fn run_plan<R: Threads + Sync, C: StopCheck, G: Gate + Sync>(
    rt: &R,
    alloc: Global,
    arena: &Arena,
    root: u32,
    config: &PipeConfig,
    stop: &mut C,
    gate: &G,
) -> Result<RunAnswer, PipeError>
    ensures sound { OnOk result (IsSoundRun (plan_of arena.now) root config.now) }
    ensures within { OnOk result (AllWithin config.now.row_limit (plan_of arena.now) root) }
    ensures schema { let plan = plan_of arena.now in
        IfOk result (λ answer. answer.frame.schema ≡ schema_of plan root) }
    ensures rows { IfOk result (λ answer. HasRowsOf (plan_of arena.now) root answer.frame.rows) }
    ensures journal { IfOk result
        (HasJournal (plan_of arena.now) root fnv1a config.now.workers) }
    ensures paced { IfOk result (KeptPace config.now.workers config.now.chunk_rows
        (C.asked stop.old) (C.asked stop.new)) }
    ensures err { IfErr result (RunCauses (plan_of arena.now) root config.now) }
    ensures asked { OnOk result (Rises (C.asked stop.old) (C.asked stop.new)) }
    ensures yes { Counts (stops result) (C.yes stop.old) (C.yes stop.new) }
    ensures last { result ≡ Err PipeError.Stopped → C.last_answer stop.new ≡ true }
    ensures complete { IsSoundRun (plan_of arena.now) root config.now
        → AllWithin config.now.row_limit (plan_of arena.now) root
        → Stays (C.yes stop.old) (C.yes stop.new) → IfErr result IsMemory }
{
    run_plan_with(rt, alloc, arena, root, config, Fnv, stop, gate)
}
