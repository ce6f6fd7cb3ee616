//! The filter.

ghost use Rattle.std.specs.Prelude.{◌≡◌, ℕ, List};

use crate::context::PExecutionContext;
use crate::operator::{Operator, OperatorResult};
use pipe_expr::PhysicalPipedExpr;
use pipe_frame::DataChunk;
use std::alloc::{AllocError, Global};
use std::sync::Arc;

/// Keeps the rows at which a predicate is true, neither false nor null (polars-pipe's `FilterOperator`).
#[derive(Drop)]
pub struct FilterOperator<P> {
    predicate: Arc<P>,
}

impl<P> FilterOperator<P> {
    /// The filter of a predicate. It takes chunks of the schema that the predicate was made for, where its type
    /// is Boolean.
    pub fn new(predicate: Arc<P>) -> FilterOperator<P>
        ensures { result.predicate ≡ predicate }
    {
        FilterOperator { predicate }
    }
}

impl<P: PhysicalPipedExpr + Drop> Operator for FilterOperator<P> {
    ghost use Rattle.std.specs.Prelude.{false, [], codes};
    ghost use Rattle.pipe_ops.specs.Pieces.{all_of, IsWhole};
    ghost use Rattle.pipe_ops.specs.Each.{IsPredicate, filtered_row};
    ghost use Rattle.pipe_ops.specs.Laws.{never_due, same-equal};
    ghost use Rattle.std.proofs.Common.{refl};

    type Shared = ();

    ghost takes = { λ op s. IsPredicate (P.schema_of op.predicate.value) (P.expr_of op.predicate.value) s };

    ghost output = { λ op s. s };

    ghost flushed = { λ op. [] };

    ghost text = { λ op. codes "filter" };

    ghost serves = { λ op s. Unit {0} };

    ghost closed = { λ op s. Unit {0} };

    ghost each = { λ op schema s. filtered_row (P.expr_of op.predicate.value) schema };

    ghost rest = { λ op s frame. all_of (filtered_row (P.expr_of op.predicate.value) frame.schema) frame };

    ghost ready = { λ op s frame. Unit {0} };

    ghost idle = { λ op. Unit {0} };

    ghost answers = { λ op rows s chunk answer. IsWhole answer };

    ghost flushing = { λ op. false };

    ghost owed = { λ op s. [] };

    fn execute(
        &mut self,
        alloc: Global,
        context: &PExecutionContext,
        shared: &(),
        chunk: &DataChunk,
    ) -> Result<OperatorResult, AllocError> {
        let mask = self.predicate.evaluate(alloc, chunk)?;
        let kept = chunk.frame.filter(&mask)?;
        Ok(OperatorResult::Finished(chunk.with_data(kept)))
    }

    fn flush(
        &mut self,
        alloc: Global,
        context: &PExecutionContext,
        shared: &(),
    ) -> Result<OperatorResult, AllocError> {
        Ok(OperatorResult::NeedsNewData)
    }

    fn must_flush(&self) -> bool {
        false
    }

    fn split(&self, alloc: Global, thread_no: usize) -> Result<Self, AllocError> {
        Ok(FilterOperator {
            predicate: self.predicate.clone()?,
        })
    }

    fn fmt(&self) -> &str {
        "filter"
    }

    ghost starts = { λ op s frame h. tt };

    ghost owes = { λ op s frame h i. same-equal refl };

    ghost flushes = { λ op s h t. never_due h };

    ghost calm = { λ op h. refl };
}
