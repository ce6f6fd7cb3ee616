//! The projection by names.

ghost use Rattle.std.specs.Prelude.{◌≡◌, ℕ, List, None};
ghost use Rattle.pipe_frame.specs.Frame.{select_fault};

use crate::context::PExecutionContext;
use crate::operator::{Operator, OperatorResult};
use pipe_frame::DataChunk;
use pipe_schema::{FrameError, List, Schema, Text, TryClone};
use std::alloc::{AllocError, Global};

/// The named columns, in the order of the names (polars-pipe's `SimpleProjectionOperator`).
#[derive(Drop)]
pub struct SimpleProjectionOperator {
    columns: List<Text>,
    input_schema: Schema,
    ghost known: { select_fault input_schema columns ≡ None },
}

impl SimpleProjectionOperator {
    /// The projection of chunks of a schema to these columns of it: one or more, each once.
    pub fn new(columns: List<Text>, input_schema: Schema) -> SimpleProjectionOperator
        requires { select_fault input_schema columns ≡ None }
        ensures columns { result.columns ≡ columns }
        ensures schema { result.input_schema ≡ input_schema }
    {
        SimpleProjectionOperator {
            columns,
            input_schema,
        }
    }
}

impl Operator for SimpleProjectionOperator {
    ghost use Rattle.std.specs.Prelude.{false, [], codes};
    ghost use Rattle.pipe_expr.specs.Projections.{fields_named};
    ghost use Rattle.pipe_ops.specs.Pieces.{all_of, IsWhole};
    ghost use Rattle.pipe_ops.specs.Each.{named_row};
    ghost use Rattle.pipe_ops.specs.Laws.{never_due, same-equal};
    ghost use Rattle.std.proofs.Common.{refl};

    type Shared = ();

    ghost takes = { λ op s. s ≡ op.input_schema };

    ghost output = { λ op s. fields_named s op.columns };

    ghost flushed = { λ op. [] };

    ghost text = { λ op. codes "fast_projection" };

    ghost serves = { λ op s. Unit {0} };

    ghost closed = { λ op s. Unit {0} };

    ghost each = { λ op schema s. named_row op.columns schema };

    ghost rest = { λ op s frame. all_of (named_row op.columns frame.schema) frame };

    ghost ready = { λ op s frame. Unit {0} };

    ghost idle = { λ op. Unit {0} };

    ghost answers = { λ op rows s chunk answer. IsWhole answer };

    ghost flushing = { λ op. false };

    ghost owed = { λ op s. [] };

    fn execute(
        &mut self,
        alloc: Global,
        context: &PExecutionContext,
        shared: &(),
        chunk: &DataChunk,
    ) -> Result<OperatorResult, AllocError> {
        let _ = chunk.frame.get_columns();
        match chunk.frame.select(self.columns.as_slice()) {
            Ok(frame) => Ok(OperatorResult::Finished(chunk.with_data(frame))),
            Err(FrameError::Memory) => Err(AllocError),
            Err(_) => unreachable!(),
        }
    }

    fn flush(
        &mut self,
        alloc: Global,
        context: &PExecutionContext,
        shared: &(),
    ) -> Result<OperatorResult, AllocError> {
        Ok(OperatorResult::NeedsNewData)
    }

    fn must_flush(&self) -> bool {
        false
    }

    fn split(&self, alloc: Global, thread_no: usize) -> Result<Self, AllocError> {
        Ok(SimpleProjectionOperator {
            columns: self.columns.try_clone()?,
            input_schema: self.input_schema.try_clone()?,
        })
    }

    fn fmt(&self) -> &str {
        "fast_projection"
    }

    ghost starts = { λ op s frame h. tt };

    ghost owes = { λ op s frame h i. same-equal refl };

    ghost flushes = { λ op s h t. never_due h };

    ghost calm = { λ op h. refl };
}
