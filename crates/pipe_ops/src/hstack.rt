//! The extension by expressions.

ghost use Rattle.std.specs.Prelude.{◌≡◌, ℕ, List};

use crate::context::PExecutionContext;
use crate::frames::frame_of;
use crate::operator::{Operator, OperatorResult};
use crate::shared::shared_again;
use crate::stacked::{add_new_columns, replaced_columns};
use pipe_expr::PhysicalPipedExpr;
use pipe_frame::DataChunk;
use pipe_schema::{List, Schema, TryClone};
use std::alloc::{AllocError, Global};
use std::sync::Arc;

/// The columns of a chunk with those of expressions: one of a known name replaces the column of that name in its
/// place, a new one stands behind (polars-pipe's `HstackOperator`).
#[derive(Drop)]
pub struct HstackOperator<P> {
    exprs: List<Arc<P>>,
    input_schema: Schema,
}

impl<P> HstackOperator<P> {
    /// The extension by these expressions of distinct names. It takes chunks of this schema, which all of them
    /// were made for.
    pub fn new(exprs: List<Arc<P>>, input_schema: Schema) -> HstackOperator<P>
        ensures exprs { result.exprs ≡ exprs }
        ensures schema { result.input_schema ≡ input_schema }
    {
        HstackOperator {
            exprs,
            input_schema,
        }
    }
}

impl<P: PhysicalPipedExpr + Drop> Operator for HstackOperator<P> {
    ghost use Rattle.std.specs.Prelude.{false, [], codes};
    ghost use Rattle.pipe_expr.specs.Projections.{hstack_fields};
    ghost use Rattle.pipe_ops.specs.Pieces.{all_of, IsWhole};
    ghost use Rattle.pipe_ops.specs.Exprs.{exprs_in, CanStack, stacked_row};
    ghost use Rattle.pipe_ops.specs.Laws.{never_due, same-equal};
    ghost use Rattle.std.proofs.Common.{refl};

    type Shared = ();

    ghost takes = { λ op s. CanStack P.schema_of P.expr_of op.input_schema op.exprs s };

    ghost output = { λ op s. hstack_fields s (exprs_in P.expr_of op.exprs) };

    ghost flushed = { λ op. [] };

    ghost text = { λ op. codes "hstack" };

    ghost serves = { λ op s. Unit {0} };

    ghost closed = { λ op s. Unit {0} };

    ghost each = { λ op schema s. stacked_row (exprs_in P.expr_of op.exprs) schema };

    ghost rest = { λ op s frame. all_of (stacked_row (exprs_in P.expr_of op.exprs) frame.schema) frame };

    ghost ready = { λ op s frame. Unit {0} };

    ghost idle = { λ op. Unit {0} };

    ghost answers = { λ op rows s chunk answer. IsWhole answer };

    ghost flushing = { λ op. false };

    ghost owed = { λ op s. [] };

    fn execute(
        &mut self,
        alloc: Global,
        context: &PExecutionContext,
        shared: &(),
        chunk: &DataChunk,
    ) -> Result<OperatorResult, AllocError> {
        let exprs = self.exprs.as_slice();
        let _ = chunk.frame.schema();
        let mut columns = replaced_columns(alloc, exprs, chunk)?;
        add_new_columns(alloc, exprs, chunk, &self.input_schema, &mut columns)?;
        let frame = frame_of(alloc, columns)?;
        Ok(OperatorResult::Finished(chunk.with_data(frame)))
    }

    fn flush(
        &mut self,
        alloc: Global,
        context: &PExecutionContext,
        shared: &(),
    ) -> Result<OperatorResult, AllocError> {
        Ok(OperatorResult::NeedsNewData)
    }

    fn must_flush(&self) -> bool {
        false
    }

    fn split(&self, alloc: Global, thread_no: usize) -> Result<Self, AllocError> {
        Ok(HstackOperator {
            exprs: shared_again(alloc, self.exprs.as_slice())?,
            input_schema: self.input_schema.try_clone()?,
        })
    }

    fn fmt(&self) -> &str {
        "hstack"
    }

    ghost starts = { λ op s frame h. tt };

    ghost owes = { λ op s frame h i. same-equal refl };

    ghost flushes = { λ op s h t. never_due h };

    ghost calm = { λ op h. refl };
}
