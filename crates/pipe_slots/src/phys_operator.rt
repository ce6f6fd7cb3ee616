//! The operators of a plan's nodes as one type.

ghost use Rattle.std.specs.Prelude.{◌≡◌};
ghost use Rattle.pipe_slots.specs.JoinWords.{parts_in, part_in};
ghost use Rattle.pipe_slots.specs.PhysWords.{keeps_of, planned_text};

use crate::call_back::CallBack;
use crate::place_holder::PlaceHolder;
use crate::slot::Slot;
use pipe_chain::{FlushParts, Operator};
use pipe_expr::PhysicalExpr;
use pipe_frame::DataChunk;
use pipe_index::HashesKeys;
use pipe_ops::{
    FilterOperator, HstackOperator, Operator as RowOperator, OperatorResult, PExecutionContext,
    Pass, ProjectionOperator, SimpleProjectionOperator,
};
use pipe_rows::KeyHasher;
use pipe_source::FunctionOperator;
use std::alloc::{AllocError, Global};

/// An operator of a plan (polars-pipe's `PhysOperator`): that of a filter, of a projection by names or by expressions,
/// of added columns, of a function, what lets chunks through, the place of a join's probe, or the probe. It makes of a
/// row what the one that it is makes of it. A place takes no chunk; a lane has the probe in its stead.
#[derive(Drop)]
pub enum PhysOperator<H: HashesKeys> {
    Filter(FilterOperator<PhysicalExpr>),
    SimpleProjection(SimpleProjectionOperator),
    Projection(ProjectionOperator<PhysicalExpr>),
    Hstack(HstackOperator<PhysicalExpr>),
    Function(FunctionOperator),
    Pass(Pass),
    PlaceHolder(PlaceHolder),
    CallBack(CallBack<H>),
}

impl<H: HashesKeys> PhysOperator<H> {
    /// The text that stands for it in a plan's pipelines: `placeholder` where the probe of a join comes.
    pub fn planned_text(&self) -> &str
        ensures { result.now ≡ planned_text self.now }
    {
        match self {
            PhysOperator::Filter(_) => "filter",
            PhysOperator::SimpleProjection(_) => "fast_projection",
            PhysOperator::Projection(_) => "projection",
            PhysOperator::Hstack(_) => "hstack",
            PhysOperator::Function(_) => "function",
            PhysOperator::Pass(pass) => pass.fmt(),
            PhysOperator::PlaceHolder(_) => "placeholder",
            PhysOperator::CallBack(_) => "callback",
        }
    }
}

impl<H: KeyHasher> Operator for PhysOperator<H> {
    ghost use Rattle.pipe_slots.specs.PhysWords.{takes_of, output_of, flushed_of, text_of};
    ghost use Rattle.pipe_slots.specs.PhysWords.{suits_of, seated_of, closed_of, work_of, acts_of};
    ghost use Rattle.pipe_slots.specs.PhysWords.{rest_of, ready_of, idle_of, answers_of};
    ghost use Rattle.pipe_slots.specs.PhysWords.{is_flushing_of, flush_owed};
    ghost use Rattle.pipe_slots.specs.PhysLaws.{phys_starts, phys_owes, phys_asks, phys_flushes, phys_calm};

    type Shared = Slot<H>;

    ghost takes = { takes_of };

    ghost output = { output_of };

    ghost flushed = { flushed_of };

    ghost text = { text_of };

    ghost suits = { suits_of };

    ghost seated = { seated_of };

    ghost closed = { λ op slot. closed_of H.hash_of op slot };

    ghost work = { work_of };

    ghost acts = { acts_of };

    ghost rest = { rest_of };

    ghost ready = { ready_of };

    ghost idle = { idle_of };

    ghost answers = { answers_of };

    ghost flushing = { is_flushing_of };

    ghost owed = { λ op slot. flush_owed H.hash_of op slot };

    fn execute(
        &mut self,
        alloc: Global,
        context: &PExecutionContext,
        shared: &Slot<H>,
        chunk: &DataChunk,
    ) -> Result<OperatorResult, AllocError> {
        match self {
            PhysOperator::Filter(filter) => filter.execute(alloc, context, &(), chunk),
            PhysOperator::SimpleProjection(projection) => {
                projection.execute(alloc, context, &(), chunk)
            }
            PhysOperator::Projection(projection) => projection.execute(alloc, context, &(), chunk),
            PhysOperator::Hstack(extension) => extension.execute(alloc, context, &(), chunk),
            PhysOperator::Function(function) => function.execute(alloc, context, &(), chunk),
            PhysOperator::Pass(pass) => pass.execute(alloc, context, &(), chunk),
            PhysOperator::PlaceHolder(_) => unreachable!(),
            PhysOperator::CallBack(probe) => probe.execute(alloc, context, shared, chunk),
        }
    }

    fn flush(
        &mut self,
        alloc: Global,
        context: &PExecutionContext,
        shared: &Slot<H>,
    ) -> Result<OperatorResult, AllocError> {
        match self {
            PhysOperator::Filter(_) => Ok(OperatorResult::NeedsNewData),
            PhysOperator::SimpleProjection(_) => Ok(OperatorResult::NeedsNewData),
            PhysOperator::Projection(_) => Ok(OperatorResult::NeedsNewData),
            PhysOperator::Hstack(_) => Ok(OperatorResult::NeedsNewData),
            PhysOperator::Function(_) => Ok(OperatorResult::NeedsNewData),
            PhysOperator::Pass(_) => Ok(OperatorResult::NeedsNewData),
            PhysOperator::PlaceHolder(_) => unreachable!(),
            PhysOperator::CallBack(probe) => probe.flush(alloc, context, shared),
        }
    }

    fn must_flush(&self) -> bool {
        match self {
            PhysOperator::Filter(_) => false,
            PhysOperator::SimpleProjection(_) => false,
            PhysOperator::Projection(_) => false,
            PhysOperator::Hstack(_) => false,
            PhysOperator::Function(_) => false,
            PhysOperator::Pass(_) => false,
            PhysOperator::PlaceHolder(_) => false,
            PhysOperator::CallBack(probe) => probe.must_flush(),
        }
    }

    fn split(&self, alloc: Global, thread_no: usize) -> Result<PhysOperator<H>, AllocError> {
        match self {
            PhysOperator::Filter(filter) => {
                Ok(PhysOperator::Filter(filter.split(alloc, thread_no)?))
            }
            PhysOperator::SimpleProjection(projection) => Ok(PhysOperator::SimpleProjection(
                projection.split(alloc, thread_no)?,
            )),
            PhysOperator::Projection(projection) => Ok(PhysOperator::Projection(projection.split(
                alloc, thread_no,
            )?)),
            PhysOperator::Hstack(extension) => {
                Ok(PhysOperator::Hstack(extension.split(alloc, thread_no)?))
            }
            PhysOperator::Function(function) => {
                Ok(PhysOperator::Function(function.split(alloc, thread_no)?))
            }
            PhysOperator::Pass(pass) => Ok(PhysOperator::Pass(*pass)),
            PhysOperator::PlaceHolder(place) => {
                Ok(PhysOperator::CallBack(place.split(alloc, thread_no)?))
            }
            PhysOperator::CallBack(probe) => {
                Ok(PhysOperator::CallBack(probe.split(alloc, thread_no)?))
            }
        }
    }

    fn fmt(&self) -> &str {
        match self {
            PhysOperator::Filter(_) => "filter",
            PhysOperator::SimpleProjection(_) => "fast_projection",
            PhysOperator::Projection(_) => "projection",
            PhysOperator::Hstack(_) => "hstack",
            PhysOperator::Function(_) => "function",
            PhysOperator::Pass(pass) => pass.fmt(),
            PhysOperator::PlaceHolder(_) => "callback",
            PhysOperator::CallBack(_) => "callback",
        }
    }

    ghost starts = { λ op slot frame i. phys_starts op slot frame i };

    ghost owes = { λ op slot frame t i. phys_owes op slot frame i };

    ghost asks = { λ op slot frame t i. phys_asks op slot frame i };

    ghost flushes = { λ op s due t. phys_flushes op s due };

    ghost calm = { λ op i. phys_calm op i };
}

impl<H: KeyHasher> FlushParts for PhysOperator<H> {
    ghost use Rattle.pipe_slots.specs.PhysLaws.{phys_kept};

    ghost keeps = { keeps_of };

    ghost parts = { parts_in };

    ghost part_of = { λ slot p. part_in H.hash_of slot p };

    fn part_count(shared: &Slot<H>) -> u32 {
        shared.part_count()
    }

    fn begin_flush(&mut self, part: u32) {
        match self {
            PhysOperator::CallBack(probe) => probe.begin_flush(part),
            PhysOperator::Filter(_)
            | PhysOperator::SimpleProjection(_)
            | PhysOperator::Projection(_)
            | PhysOperator::Hstack(_)
            | PhysOperator::Function(_)
            | PhysOperator::Pass(_)
            | PhysOperator::PlaceHolder(_) => unreachable!(),
        }
    }

    ghost kept = { λ op slot n closed less. phys_kept H.hash_of op slot n closed less };
}
