//! A plan's pipelines, with what runs them.

ghost use Rattle.std.specs.Prelude.{◌≡◌, [], IfOk, IfErr, OnOk, Err, true};
ghost use Rattle.pipe_schema.specs.Counts.{Counts, Rises};
ghost use Rattle.pipe_schema.specs.Rows.{Same};
ghost use Rattle.pipe_convert.specs.Converted.{schema_in};
ghost use Rattle.pipe_convert.specs.Nodes.{nodes_in, plan_in, rows_in};
ghost use Rattle.pipe_driver.specs.Within.{AllWithin, RunEndsWith};
ghost use Rattle.pipe_plan.specs.Under.{node_at};
ghost use Rattle.pipe_engine.specs.Asked.{stops};
ghost use Rattle.pipe_engine.specs.Paced.{TakesPaced, most_of};
ghost use Rattle.pipe_run.specs.Paced.{KeepsPace};
ghost use Rattle.pipe_lines.specs.Journals.{IsJournalOf};
ghost use Rattle.pipe_lines.specs.Made.{sorts_rows};
ghost use Rattle.pipe_lines.specs.Standing.{IsRunFor, IsMemory, Stays, rows_scanned};

use crate::executing::execute_pipeline;
use crate::layout::Layout;
use crate::pipe_line::PipeLine;
use crate::pipeline::create_pipelines;
use pipe_check::CheckedPlan;
use pipe_convert::{LegCounts, branch_counts, node_count};
use pipe_driver::{RunError, SinkCounts, cut};
use pipe_engine::Tools;
use pipe_events::{Event, frames_fit};
use pipe_frame::DataFrame;
use pipe_ops::PExecutionContext;
use pipe_rows::KeyHasher;
use pipe_schema::{Gate, StopCheck};
use pipe_slots::Slots;
use std::alloc::{AllocError, Global};
use std::thread::Threads;

/// The pipelines of a checked plan's branches, in order, and what is lent to their run: slots, none of which is filled,
/// and how many legs come to each sink.
pub fn create_run<H: KeyHasher>(
    alloc: Global,
    plan: &CheckedPlan,
    context: PExecutionContext,
    hasher: H,
) -> Result<(Vec<PipeLine<H>>, Slots<H>, SinkCounts), AllocError>
    ensures { IfOk result (λ r. IsRunFor H.hash_of plan.now context r.0.items r.1 r.2) }
{
    plan.known_well_formed();
    let workers = context.workers;
    let branches = cut(alloc, plan)?;
    let all = branches.as_slice();
    let counts = branch_counts(alloc, plan, all)?;
    let layout = Layout::new(alloc, plan, workers, hasher)?;
    let pipelines = create_pipelines(alloc, all, plan, &layout, workers)?;
    let slots = Slots::new(alloc, node_count(plan), workers)?;
    let LegCounts { sinks, probers: _ } = counts;
    Ok((pipelines, slots, sinks))
}

/// Runs the pipelines of a checked plan: the rows of its root, under its schema, in their order where it is a sort. No
/// node under that has more rows than the limit. What the legs did is the journal: a complete list of events of the plan,
/// which brings the root those rows, in place of what it held. To each question of the stop check the workers take at most
/// four chunks each: of the scans under the root by their rows, and of all sources by the journal. `Stopped` where it said
/// yes, after which it isn't asked again; else it said no each time. `TooMany` with a node under the root that has more
/// rows than the limit; `Memory`. A plan that is within the limit, and isn't stopped, ends with its rows or for want of
/// memory.
pub fn run_branches<R: Threads + Sync, H: KeyHasher, C: StopCheck, G: Gate + Sync>(
    alloc: Global,
    tools: &Tools<R, G>,
    stop: &mut C,
    plan: &CheckedPlan,
    context: PExecutionContext,
    hasher: H,
    journal: &mut Vec<Event>,
) -> Result<DataFrame, RunError>
    ensures rows { IfOk result (λ frame. Same frame.rows (rows_in plan.now plan.now.root)) }
    ensures in_order { sorts_rows (node_at (nodes_in plan.now) plan.now.root) ≡ true →
        IfOk result (λ frame. frame.rows ≡ rows_in plan.now plan.now.root) }
    ensures schema { IfOk result (λ frame. frame.schema ≡ schema_in plan.now plan.now.root) }
    ensures within { OnOk result (AllWithin context.row_limit (plan_in plan.now) plan.now.root) }
    ensures journal { IfOk result
        (IsJournalOf (plan_in plan.now) plan.now.root (H.hash_of hasher) context.workers
        journal.new.items) }
    ensures err { IfErr result (RunEndsWith context.row_limit (plan_in plan.now) plan.now.root) }
    ensures complete { AllWithin context.row_limit (plan_in plan.now) plan.now.root
        → Stays (C.yes stop.old) (C.yes stop.new) → IfErr result IsMemory }
    ensures asked { OnOk result (Rises (C.asked stop.old) (C.asked stop.new)) }
    ensures yes { Counts (stops result) (C.yes stop.old) (C.yes stop.new) }
    ensures last { result ≡ Err RunError.Stopped → C.last_answer stop.new ≡ true }
    ensures paced { OnOk result (TakesPaced (most_of context) (rows_scanned plan.now) 0
        (C.asked stop.old) (C.asked stop.new)) }
    ensures kept { OnOk result (KeepsPace context.workers context.chunk_rows
        (C.asked stop.old) (C.asked stop.new) [] journal.new.items) }
{
    frames_fit(plan.arena().frames.as_slice());
    match create_run(alloc, plan, context, hasher) {
        Ok((pipelines, slots, counts)) => execute_pipeline(
            alloc, tools, &context, pipelines, slots, counts, stop, journal,
        ),
        Err(_) => Err(RunError::Memory),
    }
}
