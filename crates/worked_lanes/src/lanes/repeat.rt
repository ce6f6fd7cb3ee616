//! An operator for cases: it gives each chunk so many times, and is refused memory from a call on.

ghost use Rattle.std.specs.Prelude.{◌≡◌, ℕ, List};

use pipe_frame::DataChunk;
use pipe_ops::{Operator, OperatorResult, PExecutionContext};
use pipe_schema::TryClone;
use std::alloc::{AllocError, Global};

/// Gives each chunk so many times, piece by piece: with 0, nothing; with 1, the chunk.
#[derive(Clone, Copy, Debug, Drop)]
pub(crate) struct Repeat {
    /// How many pieces a chunk gives.
    pub times: u32,
    /// How many pieces of the chunk that was begun are out.
    pub given: u32,
    /// How many calls succeed before memory is refused.
    pub calls: u32,
}

impl Operator for Repeat {
    ghost use Rattle.std.specs.Prelude.{◌-◌, false, [], ◌∷◌, codes};
    ghost use Rattle.std.proofs.Common.{refl};
    ghost use Rattle.pipe_ops.specs.Laws.{never_due};
    ghost use Rattle.worked_lanes.specs.Repeats.{times_of, copies};
    ghost use Rattle.worked_lanes.specs.RepeatLaws.{repeat_idle_owes};

    type Shared = u8;

    ghost takes = { λ op s. Unit {0} };

    ghost output = { λ op s. s };

    ghost flushed = { λ op. [] };

    ghost text = { λ op. codes "repeat" };

    ghost serves = { λ op s. Unit {0} };

    ghost closed = { λ op s. Unit {0} };

    ghost each = { λ op schema s. times_of op.times };

    ghost rest = { λ op s frame. copies (op.times - op.given) frame.rows };

    ghost ready = { λ op s frame. Unit {0} };

    ghost idle = { λ op. op.given ≡ 0 };

    ghost answers = { λ op rows s chunk answer. Unit {0} };

    ghost flushing = { λ op. false };

    ghost owed = { λ op s. [] };

    fn execute(
        &mut self,
        alloc: Global,
        context: &PExecutionContext,
        shared: &u8,
        chunk: &DataChunk,
    ) -> Result<OperatorResult, AllocError> {
        if self.calls == 0 {
            return Err(AllocError);
        }
        self.calls -= 1;
        let left = self.times.saturating_sub(self.given);
        if left == 0 {
            self.given = 0;
            return Ok(OperatorResult::NeedsNewData);
        }
        if chunk.frame.height() == 0 {
            self.given = 0;
            return Ok(OperatorResult::NeedsNewData);
        }
        let piece = chunk.try_clone()?;
        if left == 1 {
            self.given = 0;
            return Ok(OperatorResult::Finished(piece));
        }
        self.given += 1;
        Ok(OperatorResult::HaveMoreOutPut(piece))
    }

    fn flush(
        &mut self,
        alloc: Global,
        context: &PExecutionContext,
        shared: &u8,
    ) -> Result<OperatorResult, AllocError> {
        Ok(OperatorResult::NeedsNewData)
    }

    fn must_flush(&self) -> bool {
        false
    }

    fn split(&self, alloc: Global, thread_no: usize) -> Result<Repeat, AllocError> {
        Ok(Repeat {
            times: self.times,
            given: 0,
            calls: self.calls,
        })
    }

    fn fmt(&self) -> &str {
        "repeat"
    }

    ghost starts = { λ op s frame h. tt };

    ghost owes = { λ op s frame h i. repeat_idle_owes op.times op.given frame.rows i };

    ghost flushes = { λ op s h t. never_due h };

    ghost calm = { λ op h. refl };
}
