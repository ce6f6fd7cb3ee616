//! Lanes over the rows of a frame.

ghost use Rattle.std.specs.Prelude.{◌≡◌, ◌≤◌, [], All, length, IfOk, Ok};
ghost use Rattle.std.specs.List.{flat_map};
ghost use Rattle.pipe_run.specs.Lanes.{IsSet, held_in as in_lane};
ghost use Rattle.pipe_source.specs.Ordered.{held_in};
ghost use Rattle.worked_lanes.specs.Repeats.{schema_of};

use crate::lanes::repeat::Repeat;
use crate::lanes::told::{entries_text, takes_kept, takes_noted};
use pipe_chain::PlainOperator;
use pipe_frame::DataFrame;
use pipe_ops::{FinalizedSink, PExecutionContext, Sink};
use pipe_run::{Halt, Lane, Note, SinkStage, Stage, gather, open_lanes, run_rounds};
use pipe_schema::{Gate, NeverStop, StopCheck, TryClone};
use pipe_source::{DataFrameSource, OrderedSink};
use std::alloc::{AllocError, Global};
use std::thread::Threads;

/// The node of the sink.
const SINK: u32 = 100;

/// A lane over operators of these cases.
type RepeatLane = Lane<PlainOperator<Repeat>, OrderedSink>;

/// What lanes did with a frame, and how they ended.
#[derive(Drop)]
pub(crate) struct Outcome {
    pub ending: Result<(), Halt>,
    /// How many chunks all lanes took.
    pub takes: u64,
    /// What the first lane did.
    pub entries: String,
    /// The rows of all sinks, where all rows went through.
    pub frame: Option<DataFrame>,
}

/// Lanes as they stand at their end, what they noted, and how they ended.
#[derive(Drop)]
pub(crate) struct Ran {
    pub lanes: Vec<RepeatLane>,
    pub notes: Vec<Note>,
    pub ending: Result<(), Halt>,
}

/// Stages of these operators, over the nodes 0, 1, ..
fn stages_of(
    alloc: Global,
    repeats: &[Repeat],
) -> Result<Vec<Stage<PlainOperator<Repeat>>>, AllocError> {
    let mut stages = Vec::new(alloc);
    let mut node = 0u32;
    for repeat in repeats {
        stages.push(Stage {
            operator: PlainOperator { operator: *repeat },
            node,
            given: 0,
        })?;
        node = node.saturating_add(1);
    }
    Ok(stages)
}

/// What all lanes share of each stage: a number, which none reads.
fn shared_of(alloc: Global, stages: &[Stage<PlainOperator<Repeat>>]) -> Result<Vec<u8>, AllocError>
    ensures { IfOk result (λ shared. length shared.items ≡ length stages.now) }
{
    let mut shared = Vec::new(alloc);
    for _stage in stages {
        shared.push(0)?;
    }
    Ok(shared)
}

/// How many chunks all lanes took.
fn takes_of(ran: &Ran) -> u64 {
    let mut takes = takes_noted(ran.notes.as_slice());
    for lane in ran.lanes.as_slice() {
        takes = takes.saturating_add(takes_kept(lane.entries.as_slice()));
    }
    takes
}

/// What the first lane did.
fn first_entries(alloc: Global, ran: &Ran) -> Result<String, AllocError> {
    let notes = ran.notes.as_slice();
    match ran.lanes.first() {
        Some(lane) => entries_text(alloc, notes, lane.entries.as_slice()),
        None => entries_text(alloc, notes, &[]),
    }
}

/// The rows that the sinks of all lanes hold.
fn gathered(
    alloc: Global,
    context: &PExecutionContext,
    lanes: Vec<RepeatLane>,
    mut sink: OrderedSink,
) -> Result<Option<DataFrame>, AllocError>
    requires settings { All (IsSet schema_of sink.schema) lanes.items }
    requires empty { held_in sink ≡ [] }
    requires room { length (flat_map (in_lane held_in) lanes.items) ≤ 4294967294 }
{
    if gather(alloc, &mut NeverStop::new(), lanes, &mut sink).is_err() {
        return Ok(None);
    }
    match sink.finalize(alloc, context)? {
        FinalizedSink::Finished(frame) => Ok(Some(frame)),
        FinalizedSink::Operator(()) => Ok(None),
        FinalizedSink::Source(_) => Ok(None),
    }
}

/// Lanes over all that a source gives, behind a gate.
fn lanes_over<R: Threads + Sync, C: StopCheck, G: Gate + Sync>(
    rt: &R,
    alloc: Global,
    context: &PExecutionContext,
    stages: &[Stage<PlainOperator<Repeat>>],
    target: &SinkStage<OrderedSink>,
    mut source: DataFrameSource,
    stop: &mut C,
    gate: &G,
) -> Result<Ran, AllocError>
    requires schema { source.schema ≡ target.now.sink.schema }
    requires few { length source.rows ≤ 1000 }
    ensures settings { IfOk result (λ r. All (IsSet schema_of target.now.sink.schema) r.lanes.items) }
    ensures room { IfOk result (λ r. r.ending ≡ Ok tt →
        length (flat_map (in_lane held_in) r.lanes.items) ≤ 4294967294) }
{
    let made = shared_of(alloc, stages)?;
    let shared = made.as_slice();
    let mut lanes = open_lanes(alloc, context, shared, stages, target)?;
    let mut notes = Vec::new(alloc);
    let mut next_index = 0;
    let ending = run_rounds(
        rt,
        alloc,
        context,
        shared,
        &mut source,
        &mut next_index,
        stop,
        gate,
        lanes.as_mut_slice(),
        &mut notes,
    );
    Ok(Ran {
        lanes,
        notes,
        ending,
    })
}

/// What lanes did, and the rows of their sinks.
fn outcome_of(
    alloc: Global,
    context: &PExecutionContext,
    ran: Ran,
    sink: OrderedSink,
) -> Result<Outcome, AllocError>
    requires settings { All (IsSet schema_of sink.schema) ran.lanes.items }
    requires empty { held_in sink ≡ [] }
    requires room { ran.ending ≡ Ok tt →
        length (flat_map (in_lane held_in) ran.lanes.items) ≤ 4294967294 }
{
    let takes = takes_of(&ran);
    let entries = first_entries(alloc, &ran)?;
    let Ran {
        lanes,
        notes,
        ending,
    } = ran;
    drop(notes);
    let frame = match ending {
        Ok(()) => gathered(alloc, context, lanes, sink)?,
        Err(_) => None,
    };
    Ok(Outcome {
        ending,
        takes,
        entries,
        frame,
    })
}

/// As many lanes as workers, over all rows of a frame, behind a gate.
pub(crate) fn run_all<R: Threads + Sync, C: StopCheck, G: Gate + Sync>(
    rt: &R,
    alloc: Global,
    context: &PExecutionContext,
    repeats: &[Repeat],
    frame: &DataFrame,
    stop: &mut C,
    gate: &G,
) -> Result<Outcome, AllocError>
    requires { length frame.now.rows ≤ 1000 }
{
    let stages = stages_of(alloc, repeats)?;
    let target = SinkStage {
        sink: OrderedSink::new(alloc, frame.schema().try_clone()?),
        node: SINK,
        given: 0,
    };
    let source = DataFrameSource::from_df(frame.try_clone()?);
    let ran = lanes_over(
        rt,
        alloc,
        context,
        stages.as_slice(),
        &target,
        source,
        stop,
        gate,
    )?;
    outcome_of(alloc, context, ran, target.sink)
}
