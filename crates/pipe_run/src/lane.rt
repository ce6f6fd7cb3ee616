//! A lane: operators and a sink of its own.

ghost use Rattle.std.specs.Prelude.{◌≡◌};
ghost use Rattle.pipe_run.specs.Lanes.{IsFit, Ran, IsCalm};

use crate::entry::Entry;
use crate::pushing::push_shared;
use crate::stage::{LaneFault, SinkStage, Stage};
use pipe_chain::{ClaimSeat, Operator};
use pipe_frame::DataChunk;
use pipe_ops::{PExecutionContext, Sink};
use std::alloc::Global;
use std::collections::VecDeque;

/// A lane.
#[derive(Drop)]
pub struct Lane<O, K> {
    /// Its operators, in order.
    pub stages: VecDeque<Stage<O>>,
    /// The stages that were taken off, once nothing more comes into them; the last one is flushed through the others.
    pub flushers: Vec<Stage<O>>,
    /// Its sink.
    pub target: SinkStage<K>,
    /// Its seat at the claims of a round, during the round.
    pub seat: Option<ClaimSeat>,
    /// What it took, in order, each followed by its end.
    pub entries: Vec<Entry>,
    /// Why it stopped, if it did.
    pub refused: Option<LaneFault>,
}

/// Pushes a chunk through a lane, which keeps what is refused.
pub(crate) fn run_chunk<O: Operator, K: Sink>(
    alloc: Global,
    context: &PExecutionContext,
    shared: &[O::Shared],
    lane: &mut Lane<O, K>,
    chunk: &DataChunk,
)
    requires calm { IsCalm lane.old }
    requires fit { IsFit O.Operator K.Sink shared.now context.now.row_limit chunk.now.frame.schema
        lane.old }
    ensures fit { IsFit O.Operator K.Sink shared.now context.now.row_limit chunk.now.frame.schema
        lane.new }
    ensures ran { Ran O.Operator K.Sink shared.now context.now.row_limit chunk.now.frame.schema
        chunk.now.frame.rows lane.old lane.new }
    ensures seat { lane.new.seat ≡ lane.old.seat }
    ensures entries { lane.new.entries ≡ lane.old.entries }
{
    let stages = lane.stages.make_contiguous();
    match push_shared(alloc, context, shared, stages, chunk, &mut lane.target) {
        Ok(()) => {}
        Err(refusal) => lane.refused = Some(refusal),
    }
}
