//! The projection by expressions.

ghost use Rattle.std.specs.Prelude.{◌≡◌, ℕ, List};

use crate::context::PExecutionContext;
use crate::frames::frame_of;
use crate::operator::{Operator, OperatorResult};
use crate::shared::shared_again;
use pipe_expr::PhysicalPipedExpr;
use pipe_frame::DataChunk;
use pipe_schema::List;
use std::alloc::{AllocError, Global};
use std::sync::Arc;

/// One column per expression (polars-pipe's `ProjectionOperator`).
#[derive(Drop)]
pub struct ProjectionOperator<P> {
    exprs: List<Arc<P>>,
}

impl<P> ProjectionOperator<P> {
    /// The projection by these expressions, one or more of distinct names. It takes chunks of the schema that all
    /// of them were made for.
    pub fn new(exprs: List<Arc<P>>) -> ProjectionOperator<P>
        ensures { result.exprs ≡ exprs }
    {
        ProjectionOperator { exprs }
    }
}

impl<P: PhysicalPipedExpr + Drop> Operator for ProjectionOperator<P> {
    ghost use Rattle.std.specs.Prelude.{false, [], codes};
    ghost use Rattle.pipe_expr.specs.Projections.{select_fields};
    ghost use Rattle.pipe_ops.specs.Pieces.{all_of, IsWhole};
    ghost use Rattle.pipe_ops.specs.Exprs.{exprs_in, CanProject, projected_row};
    ghost use Rattle.pipe_ops.specs.Laws.{never_due, same-equal};
    ghost use Rattle.std.proofs.Common.{refl};

    type Shared = ();

    ghost takes = { λ op s. CanProject P.schema_of P.expr_of op.exprs s };

    ghost output = { λ op s. select_fields s (exprs_in P.expr_of op.exprs) };

    ghost flushed = { λ op. [] };

    ghost text = { λ op. codes "projection" };

    ghost serves = { λ op s. Unit {0} };

    ghost closed = { λ op s. Unit {0} };

    ghost each = { λ op schema s. projected_row (exprs_in P.expr_of op.exprs) schema };

    ghost rest = { λ op s frame. all_of (projected_row (exprs_in P.expr_of op.exprs) frame.schema) frame };

    ghost ready = { λ op s frame. Unit {0} };

    ghost idle = { λ op. Unit {0} };

    ghost answers = { λ op rows s chunk answer. IsWhole answer };

    ghost flushing = { λ op. false };

    ghost owed = { λ op s. [] };

    fn execute(
        &mut self,
        alloc: Global,
        context: &PExecutionContext,
        shared: &(),
        chunk: &DataChunk,
    ) -> Result<OperatorResult, AllocError> {
        let exprs = self.exprs.as_slice();
        let mut columns = Vec::with_capacity(alloc, exprs.len())?;
        for expr in exprs {
            columns.push(expr.evaluate(alloc, chunk)?)?;
        }
        let frame = frame_of(alloc, columns)?;
        Ok(OperatorResult::Finished(chunk.with_data(frame)))
    }

    fn flush(
        &mut self,
        alloc: Global,
        context: &PExecutionContext,
        shared: &(),
    ) -> Result<OperatorResult, AllocError> {
        Ok(OperatorResult::NeedsNewData)
    }

    fn must_flush(&self) -> bool {
        false
    }

    fn split(&self, alloc: Global, thread_no: usize) -> Result<Self, AllocError> {
        Ok(ProjectionOperator {
            exprs: shared_again(alloc, self.exprs.as_slice())?,
        })
    }

    fn fmt(&self) -> &str {
        "projection"
    }

    ghost starts = { λ op s frame h. tt };

    ghost owes = { λ op s frame h i. same-equal refl };

    ghost flushes = { λ op s h t. never_due h };

    ghost calm = { λ op h. refl };
}
