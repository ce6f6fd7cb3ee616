//! Pipelines, run to the last.

ghost use Rattle.std.specs.Prelude.{◌≡◌, [], IfOk, IfErr, OnOk, Err, true};
ghost use Rattle.pipe_schema.specs.Counts.{Counts, Rises};
ghost use Rattle.pipe_driver.specs.Plans.{StandFor};
ghost use Rattle.pipe_engine.specs.Asked.{stops};
ghost use Rattle.pipe_engine.specs.Engine.{engine_words};
ghost use Rattle.pipe_engine.specs.Known.{Asked};
ghost use Rattle.pipe_engine.specs.Paced.{TakesPaced, most_of, rows_due_of};
ghost use Rattle.pipe_run.specs.Paced.{KeepsPace};
ghost use Rattle.pipe_lines.specs.Running.{ways_in, StandForBranches, ForBranches, ForEachPlan};
ghost use Rattle.pipe_lines.specs.Running.{HasRootRows, IsFrameOfRoot, StaysWithin, RefusesBy, HasWholeJournal};

use crate::pipe_line::PipeLine;
use crate::pipeline::lines_to_run;
use pipe_driver::{RunError, SinkCounts};
use pipe_engine::{PlanLine, PlanRun, Tools, assemble_run, execute_branches};
use pipe_events::Event;
use pipe_frame::DataFrame;
use pipe_ops::PExecutionContext;
use pipe_rows::KeyHasher;
use pipe_schema::{Gate, StopCheck};
use pipe_slots::Slots;
use std::alloc::{AllocError, Global};
use std::thread::Threads;

/// The legs of pipelines, and what runs them.
fn begin_run<H: KeyHasher>(
    alloc: Global,
    context: PExecutionContext,
    pipelines: Vec<PipeLine<H>>,
    slots: Slots<H>,
    counts: SinkCounts,
) -> Result<(PlanRun<H>, Vec<PlanLine<H>>), AllocError>
    ensures lines { IfOk result (λ r. r.1.items ≡ ways_in pipelines.items) }
    ensures stand { IfOk result (λ r. (asked : Asked H) →
        StandForBranches H.hash_of asked context pipelines.items slots counts →
        StandFor (engine_words H.hash_of asked.settings) asked.ask r.0 r.1.items) }
    ensures context { IfOk result (λ r. r.0.runner.context ≡ context) }
    ensures journal { IfOk result (λ r. r.0.runner.journal.items ≡ []) }
{
    let lines = lines_to_run(alloc, pipelines)?;
    let journal = Vec::new(alloc);
    let run = assemble_run(alloc, context, slots, counts, journal, lines.as_slice())?;
    Ok((run, lines))
}

/// Runs pipelines that stand for the branches of a plan, of which none has run, in order, to the last (polars-pipe's
/// `execute_pipeline`): the rows of the root, under its sink's schema, in their order where they have one. No node under
/// the root has more rows than the context's limit. What the legs did is the journal, a whole list of events of the plan,
/// in place of what it held. To each question of the stop check the workers take at most four chunks each. `Stopped`
/// where the stop check said yes, after which it isn't asked again; else it said no each time. `TooMany` with a node
/// under the root that has more rows than the limit; `Memory`.
pub fn execute_pipeline<R: Threads + Sync, H: KeyHasher, C: StopCheck, G: Gate + Sync>(
    alloc: Global,
    tools: &Tools<R, G>,
    ec: &PExecutionContext,
    pipelines: Vec<PipeLine<H>>,
    slots: Slots<H>,
    counts: SinkCounts,
    stop: &mut C,
    journal: &mut Vec<Event>,
) -> Result<DataFrame, RunError>
    requires stand { ForBranches H.hash_of ec.now pipelines.items slots counts }
    ensures rows { IfOk result (λ frame. ForEachPlan H.hash_of ec.now pipelines.items slots counts
        (HasRootRows frame)) }
    ensures frame { IfOk result (λ frame. ForEachPlan H.hash_of ec.now pipelines.items slots counts
        (IsFrameOfRoot frame)) }
    ensures within { OnOk result (ForEachPlan H.hash_of ec.now pipelines.items slots counts
        (StaysWithin ec.now.row_limit)) }
    ensures journal { OnOk result (ForEachPlan H.hash_of ec.now pipelines.items slots counts
        (HasWholeJournal ec.now.workers pipelines.items journal.new.items)) }
    ensures err { IfErr result (λ e. ForEachPlan H.hash_of ec.now pipelines.items slots counts
        (RefusesBy ec.now.row_limit e)) }
    ensures asked { OnOk result (Rises (C.asked stop.old) (C.asked stop.new)) }
    ensures yes { Counts (stops result) (C.yes stop.old) (C.yes stop.new) }
    ensures last { result ≡ Err RunError.Stopped → C.last_answer stop.new ≡ true }
    ensures paced { OnOk result (TakesPaced (most_of ec.now) (rows_due_of (ways_in pipelines.items)) 0
        (C.asked stop.old) (C.asked stop.new)) }
    ensures kept { OnOk result (KeepsPace ec.now.workers ec.now.chunk_rows
        (C.asked stop.old) (C.asked stop.new) [] journal.new.items) }
{
    match begin_run(alloc, *ec, pipelines, slots, counts) {
        Ok((run, lines)) => execute_branches(alloc, tools, stop, run, lines, journal),
        Err(_) => Err(RunError::Memory),
    }
}
