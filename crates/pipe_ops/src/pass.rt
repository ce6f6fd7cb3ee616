//! What lets chunks through.

ghost use Rattle.std.specs.Prelude.{◌≡◌, ℕ, List};

use crate::context::PExecutionContext;
use crate::operator::{Operator, OperatorResult};
use pipe_frame::DataChunk;
use pipe_schema::TryClone;
use std::alloc::{AllocError, Global};

/// Lets chunks through as they are (polars-pipe's `operators::Pass`).
#[derive(Clone, Copy, Debug, Drop)]
pub struct Pass {
    name: &'static str,
}

impl Pass {
    /// A pass with this text.
    pub fn new(name: &'static str) -> Pass
        ensures { result.name.now ≡ name.now }
    {
        Pass { name }
    }
}

impl Operator for Pass {
    ghost use Rattle.std.specs.Prelude.{false, [], ◌∷◌};
    ghost use Rattle.pipe_ops.specs.Pieces.{all_of, IsWhole};
    ghost use Rattle.pipe_ops.specs.Each.{passed_row};
    ghost use Rattle.pipe_ops.specs.Laws.{never_due, pass_owes};
    ghost use Rattle.std.proofs.Common.{refl};

    type Shared = ();

    ghost takes = { λ op s. Unit {0} };

    ghost output = { λ op s. s };

    ghost flushed = { λ op. [] };

    ghost text = { λ op. op.name.now };

    ghost serves = { λ op s. Unit {0} };

    ghost closed = { λ op s. Unit {0} };

    ghost each = { λ op schema s. passed_row };

    ghost rest = { λ op s frame. frame.rows };

    ghost ready = { λ op s frame. Unit {0} };

    ghost idle = { λ op. Unit {0} };

    ghost answers = { λ op rows s chunk answer. IsWhole answer };

    ghost flushing = { λ op. false };

    ghost owed = { λ op s. [] };

    fn execute(
        &mut self,
        alloc: Global,
        context: &PExecutionContext,
        shared: &(),
        chunk: &DataChunk,
    ) -> Result<OperatorResult, AllocError> {
        Ok(OperatorResult::Finished(chunk.try_clone()?))
    }

    fn flush(
        &mut self,
        alloc: Global,
        context: &PExecutionContext,
        shared: &(),
    ) -> Result<OperatorResult, AllocError> {
        Ok(OperatorResult::NeedsNewData)
    }

    fn must_flush(&self) -> bool {
        false
    }

    fn split(&self, alloc: Global, thread_no: usize) -> Result<Pass, AllocError>
        ensures { result ≡ Ok self.now }
    {
        Ok(*self)
    }

    fn fmt(&self) -> &str {
        self.name
    }

    ghost starts = { λ op s frame h. tt };

    ghost owes = { λ op s frame h i. pass_owes frame };

    ghost flushes = { λ op s h t. never_due h };

    ghost calm = { λ op h. refl };
}
