//! The sinks of a plan's pipelines.

ghost use Rattle.std.specs.Prelude.{◌≡◌, List as Fields, []};
ghost use Rattle.pipe_schema.specs.declared.field.Field.{Field};
ghost use Rattle.pipe_source.specs.Endings.{source_rows, supplies_schema};

use crate::built::Built;
use pipe_frame::DataChunk;
use pipe_index::HashesKeys;
use pipe_ops::{FinalizedSink, PExecutionContext, Sink, SinkResult};
use pipe_probe::CrossJoin;
use pipe_rows::KeyHasher;
use pipe_sort::SortSink;
use pipe_source::{OrderedSink, PhysSource, UnionSource};
use pipe_table::GenericBuild;
use std::alloc::{AllocError, Global};

/// A sink of a plan: that of the root, of a sort, of the side of a join that is built, or of that of a cross join.
#[derive(Drop)]
pub enum PhysSink<H: HashesKeys> {
    Ordered(OrderedSink),
    Sort(SortSink),
    Build(GenericBuild<H>),
    Cross(CrossJoin),
}

impl<H: HashesKeys> From<OrderedSink> for PhysSink<H> {
    fn from(sink: OrderedSink) -> PhysSink<H> {
        PhysSink::Ordered(sink)
    }
}

impl<H: HashesKeys> From<SortSink> for PhysSink<H> {
    fn from(sink: SortSink) -> PhysSink<H> {
        PhysSink::Sort(sink)
    }
}

impl<H: HashesKeys> From<GenericBuild<H>> for PhysSink<H> {
    fn from(sink: GenericBuild<H>) -> PhysSink<H> {
        PhysSink::Build(sink)
    }
}

impl<H: HashesKeys> From<CrossJoin> for PhysSink<H> {
    fn from(sink: CrossJoin) -> PhysSink<H> {
        PhysSink::Cross(sink)
    }
}

impl<H: KeyHasher> Sink for PhysSink<H> {
    ghost use Rattle.pipe_source.specs.Endings.{source_rows, supplies_schema};
    ghost use Rattle.pipe_slots.specs.Sinks.{SinkSetting, setting_in, sink_schema, sink_text, sink_rows, is_build, join_of, built_rows, may_end};
    ghost use Rattle.pipe_slots.specs.SinkLaws.{any_order};

    type Built = Built<H>;

    type Src = PhysSource;

    ghost Setting = { SinkSetting H };

    ghost setting = { setting_in };

    ghost schema = { sink_schema };

    ghost gives = { sink_schema };

    ghost text = { sink_text };

    ghost held = { sink_rows };

    ghost builds = { is_build };

    ghost number = { join_of };

    ghost built = { built_rows };

    ghost left = { source_rows };

    ghost supplies = { supplies_schema };

    ghost ends = { may_end };

    fn sink(
        &mut self,
        alloc: Global,
        context: &PExecutionContext,
        chunk: DataChunk,
    ) -> Result<SinkResult, AllocError> {
        match self {
            PhysSink::Ordered(sink) => sink.sink(alloc, context, chunk),
            PhysSink::Sort(sink) => sink.sink(alloc, context, chunk),
            PhysSink::Build(sink) => sink.sink(alloc, context, chunk),
            PhysSink::Cross(sink) => sink.sink(alloc, context, chunk),
        }
    }

    fn combine(&mut self, alloc: Global, other: PhysSink<H>) -> Result<(), AllocError> {
        match self {
            PhysSink::Ordered(sink) => {
                let PhysSink::Ordered(other) = other else {
                    unreachable!()
                };
                sink.combine(alloc, other)
            }
            PhysSink::Sort(sink) => {
                let PhysSink::Sort(other) = other else {
                    unreachable!()
                };
                sink.combine(alloc, other)
            }
            PhysSink::Build(sink) => {
                let PhysSink::Build(other) = other else {
                    unreachable!()
                };
                sink.combine(alloc, other)
            }
            PhysSink::Cross(sink) => {
                let PhysSink::Cross(other) = other else {
                    unreachable!()
                };
                sink.combine(alloc, other)
            }
        }
    }

    fn split(&self, alloc: Global, thread_no: usize) -> Result<PhysSink<H>, AllocError> {
        match self {
            PhysSink::Ordered(sink) => Ok(PhysSink::Ordered(sink.split(alloc, thread_no)?)),
            PhysSink::Sort(sink) => Ok(PhysSink::Sort(sink.split(alloc, thread_no)?)),
            PhysSink::Build(sink) => Ok(PhysSink::Build(sink.split(alloc, thread_no)?)),
            PhysSink::Cross(sink) => Ok(PhysSink::Cross(sink.split(alloc, thread_no)?)),
        }
    }

    fn finalize(
        self,
        alloc: Global,
        context: &PExecutionContext,
    ) -> Result<FinalizedSink<Built<H>, PhysSource>, AllocError> {
        match self {
            PhysSink::Ordered(sink) => match sink.finalize(alloc, context)? {
                FinalizedSink::Finished(frame) => Ok(FinalizedSink::Finished(frame)),
                FinalizedSink::Operator(()) => unreachable!(),
                FinalizedSink::Source(source) => Ok(FinalizedSink::Source(source)),
            },
            PhysSink::Sort(sink) => match sink.finalize(alloc, context)? {
                FinalizedSink::Finished(frame) => Ok(FinalizedSink::Finished(frame)),
                FinalizedSink::Operator(()) => unreachable!(),
                // a sort ends as a frame; what it promises allows an end without rows as well
                FinalizedSink::Source(()) => Ok(FinalizedSink::Source(no_frames(alloc))),
            },
            PhysSink::Build(sink) => match sink.finalize(alloc, context)? {
                FinalizedSink::Finished(_) => unreachable!(),
                FinalizedSink::Operator(table) => Ok(FinalizedSink::Operator(Built::Keys(table))),
                FinalizedSink::Source(()) => unreachable!(),
            },
            PhysSink::Cross(sink) => match sink.finalize(alloc, context)? {
                FinalizedSink::Finished(_) => unreachable!(),
                FinalizedSink::Operator(rows) => Ok(FinalizedSink::Operator(Built::Rows(rows))),
                FinalizedSink::Source(()) => unreachable!(),
            },
        }
    }

    fn is_join_build(&self) -> bool {
        match self {
            PhysSink::Ordered(_) => false,
            PhysSink::Sort(_) => false,
            PhysSink::Build(_) => true,
            PhysSink::Cross(_) => true,
        }
    }

    /// The join whose side it builds; 0 where it builds none.
    fn node(&self) -> u32 {
        match self {
            PhysSink::Ordered(_) => 0,
            PhysSink::Sort(_) => 0,
            PhysSink::Build(sink) => sink.node(),
            PhysSink::Cross(sink) => sink.node(),
        }
    }

    fn fmt(&self) -> &str {
        match self {
            PhysSink::Ordered(sink) => sink.fmt(),
            PhysSink::Sort(sink) => sink.fmt(),
            PhysSink::Build(sink) => sink.fmt(),
            PhysSink::Cross(sink) => sink.fmt(),
        }
    }

    ghost respects = { any_order };
}

/// A source of no frames.
fn no_frames(alloc: Global) -> PhysSource
    ensures rows { source_rows result ≡ [] }
    ensures schema { (fields : Fields Field) → supplies_schema result fields }
{
    PhysSource::Union(UnionSource::new(Vec::new(alloc)))
}
