//! An operator that marks nothing, in a row with those that do.

use crate::operator::Operator;
use pipe_frame::DataChunk;
use pipe_ops::{Operator as RowOperator, OperatorResult, PExecutionContext};
use std::alloc::{AllocError, Global};

/// An operator of which each row becomes some rows, and which marks no key.
#[derive(Drop)]
pub struct PlainOperator<O> {
    /// The operator.
    pub operator: O,
}

impl<O: RowOperator> Operator for PlainOperator<O> {
    ghost use Rattle.pipe_chain.specs.Flow.{no_acts};
    ghost use Rattle.pipe_chain.specs.Unmarking.{row_work, row_debt};
    ghost use Rattle.pipe_chain.specs.PlainLaws.{no_asks};

    type Shared = O::Shared;

    ghost takes = { λ op s. O.takes op.operator s };

    ghost output = { λ op. O.output op.operator };

    ghost flushed = { λ op. O.flushed op.operator };

    ghost text = { λ op. O.text op.operator };

    ghost suits = { λ op s. O.serves op.operator s };

    ghost seated = { λ op s. Unit {0} };

    ghost closed = { λ op s. O.closed op.operator s };

    ghost work = { λ op. row_work (O.each op.operator) };

    ghost acts = { λ op. no_acts };

    ghost rest = { λ op. row_debt (O.rest op.operator) };

    ghost ready = { λ op s frame. O.ready op.operator s frame };

    ghost idle = { λ op. O.idle op.operator };

    ghost answers = { λ op. O.answers op.operator };

    ghost flushing = { λ op. O.flushing op.operator };

    ghost owed = { λ op. O.owed op.operator };

    fn execute(
        &mut self,
        alloc: Global,
        context: &PExecutionContext,
        shared: &O::Shared,
        chunk: &DataChunk,
    ) -> Result<OperatorResult, AllocError> {
        self.operator.execute(alloc, context, shared, chunk)
    }

    fn flush(
        &mut self,
        alloc: Global,
        context: &PExecutionContext,
        shared: &O::Shared,
    ) -> Result<OperatorResult, AllocError> {
        self.operator.flush(alloc, context, shared)
    }

    fn must_flush(&self) -> bool {
        self.operator.must_flush()
    }

    fn split(&self, alloc: Global, thread_no: usize) -> Result<PlainOperator<O>, AllocError> {
        Ok(PlainOperator {
            operator: self.operator.split(alloc, thread_no)?,
        })
    }

    fn fmt(&self) -> &str {
        self.operator.fmt()
    }

    ghost starts = { λ op s frame i. O.starts op.operator s frame i };

    ghost owes = { λ op s frame t i. O.owes op.operator s frame t i };

    ghost asks = { λ op s frame t i. no_asks frame.rows };

    ghost flushes = { λ op s due t. O.flushes op.operator s due t };

    ghost calm = { λ op i. O.calm op.operator i };
}
