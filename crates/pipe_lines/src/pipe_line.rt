//! The pipeline of a branch.

ghost use Rattle.std.specs.Prelude.{◌≡◌, length, Some, IfOk};
ghost use Rattle.std.specs.List.{AllByRecursion};
ghost use Rattle.pipe_source.specs.Supplies.{left_of};
ghost use Rattle.pipe_lines.specs.Cuts.{AreLegsCut, EndWithin, IsMadeFor};

use crate::cutting::cut_legs;
use crate::pipe_nodes::PipeNodes;
use crate::threaded_sink::ThreadedSink;
use pipe_driver::PipeLine as Line;
use pipe_engine::PlanLine;
use pipe_index::HashesKeys;
use pipe_rows::KeyHasher;
use pipe_slots::PhysOperator;
use pipe_source::PhysSource;
use std::alloc::{AllocError, Global};

/// A pipeline (polars-pipe's `PipeLine`): a source, operators, and sinks between and behind them, for so many workers. It
/// is cut at its sinks into the legs that run.
#[derive(Drop)]
pub struct PipeLine<H: HashesKeys> {
    pub way: PlanLine<H>,
    pub workers: u32,
}

impl<H: KeyHasher> PipeLine<H> {
    /// The pipeline of a source, some operators and sinks, of which each tells how many of the operators stand before it.
    /// Each leg has the operators between two sinks.
    pub fn new(
        alloc: Global,
        source: PhysSource,
        operators: Vec<PhysOperator<H>>,
        sinks: Vec<ThreadedSink<H>>,
        nodes: PipeNodes,
        workers: u32,
    ) -> Result<PipeLine<H>, AllocError>
        requires made { AllByRecursion (IsMadeFor workers) sinks.items }
        requires ends { EndWithin (length operators.items) 0 sinks.items }
        requires operators { length nodes.operators.items ≡ length operators.items }
        requires sinks { length nodes.sinks.items ≡ length sinks.items }
        requires scans { length nodes.scans.items ≡ length (left_of source) }
        ensures start { IfOk result (λ line. line.way.start ≡ nodes.source) }
        ensures source { IfOk result (λ line. line.way.source ≡ Some source) }
        ensures legs { IfOk result (λ line. AreLegsCut operators.items nodes.operators.items 0
            nodes.source nodes.scans.items sinks.items nodes.sinks.items line.way.legs.items) }
        ensures workers { IfOk result (λ line. line.workers ≡ workers) }
    {
        let start = nodes.source;
        let legs = cut_legs(alloc, operators, sinks, nodes)?;
        Ok(PipeLine {
            way: Line {
                start,
                source: Some(source),
                legs,
            },
            workers,
        })
    }

    /// Its source, and the legs that run.
    pub fn into_legs(self) -> PlanLine<H>
        ensures { result ≡ self.way }
    {
        let PipeLine { way, workers: _ } = self;
        way
    }
}
