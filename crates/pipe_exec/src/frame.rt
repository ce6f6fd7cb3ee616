//! The frame of a checked plan.

ghost use Rattle.std.specs.Prelude.{◌≡◌, [], Err, IfOk, IfErr, OnOk, true};
ghost use Rattle.pipe_schema.specs.Counts.{Counts, Rises};
ghost use Rattle.pipe_plan.specs.Plan.{plan_of};
ghost use Rattle.pipe_plan.specs.Schemas.{schema_of};
ghost use Rattle.pipe_run.specs.Paced.{KeepsPace};
ghost use Rattle.pipe_driver.specs.Within.{AllWithin};
ghost use Rattle.pipe_lines.specs.Journals.{IsJournalOf};
ghost use Rattle.pipe_exec.specs.Evaluated.{PlanEndsWith, HasRowsOf, error_of, stops};

use pipe_check::CheckedPlan;
use pipe_driver::RunError;
use pipe_engine::Tools;
use pipe_events::Event;
use pipe_frame::DataFrame;
use pipe_lines::run_branches;
use pipe_ops::PExecutionContext;
use pipe_plan::PipeError;
use pipe_rows::KeyHasher;
use pipe_schema::{Gate, StopCheck};
use std::alloc::Global;
use std::thread::Threads;

/// Why pipelines weren't run to their end, as an error of their plan.
fn plan_error(error: RunError) -> PipeError
    ensures { result ≡ error_of error }
{
    match error {
        RunError::TooMany(node) => PipeError::TooMany(node),
        RunError::Stopped => PipeError::Stopped,
        RunError::Memory => PipeError::Memory,
    }
}

/// The frame of a checked plan, by the pipelines of its branches, and the journal of what they did. `Stopped` where the
/// stop check said yes; `TooMany` of a node whose rows are more than the context's limit; `Memory`.
pub(crate) fn plan_frame<R: Threads + Sync, H: KeyHasher, C: StopCheck, G: Gate + Sync>(
    rt: &R,
    alloc: Global,
    plan: &CheckedPlan,
    context: PExecutionContext,
    hasher: H,
    journal: &mut Vec<Event>,
    stop: &mut C,
    gate: &G,
) -> Result<DataFrame, PipeError>
    ensures schema { let root = plan.now.root in
        IfOk result (λ frame. frame.schema ≡ schema_of (plan_of plan.now.arena) root) }
    ensures rows { let root = plan.now.root in
        IfOk result (λ frame. HasRowsOf (plan_of plan.now.arena) root frame.rows) }
    ensures within { let root = plan.now.root in
        OnOk result (AllWithin context.row_limit (plan_of plan.now.arena) root) }
    ensures journal { let root = plan.now.root in
        IfOk result (IsJournalOf (plan_of plan.now.arena) root (H.hash_of hasher) context.workers
        journal.new.items) }
    ensures paced { OnOk result (KeepsPace context.workers context.chunk_rows
        (C.asked stop.old) (C.asked stop.new) [] journal.new.items) }
    ensures err { let root = plan.now.root in
        IfErr result (PlanEndsWith context.row_limit (plan_of plan.now.arena) root) }
    ensures asked { OnOk result (Rises (C.asked stop.old) (C.asked stop.new)) }
    ensures yes { Counts (stops result) (C.yes stop.old) (C.yes stop.new) }
    ensures last { result ≡ Err PipeError.Stopped → C.last_answer stop.new ≡ true }
{
    let tools = Tools { threads: rt, gate };
    let ran = run_branches(alloc, &tools, stop, plan, context, hasher, journal);
    let Tools {
        threads: _,
        gate: _,
    } = tools;
    match ran {
        Ok(frame) => Ok(frame),
        Err(error) => Err(plan_error(error)),
    }
}
