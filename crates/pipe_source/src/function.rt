//! The function operator.

ghost use Rattle.std.specs.Prelude.{◌≡◌, ◌≤◌, ℕ, List, [], length, true, false, IfOk};
ghost use Rattle.pipe_schema.specs.declared.field.Field.{Field};
ghost use Rattle.pipe_source.specs.Applied.{Applies};

use crate::cutting::Cutting;
use crate::renamed::renamed_df;
use crate::unpivoted::unpivoted_part;
use pipe_expr::FunctionIR;
use pipe_frame::DataChunk;
use pipe_ops::{Operator, OperatorResult, PExecutionContext, determine_chunk_size};
use pipe_schema::TryClone;
use std::alloc::{AllocError, Global};

/// A function over chunks, an unpivot in pieces whose size follows what the pieces before made (polars-pipe's
/// `FunctionOperator`).
#[derive(Drop)]
pub struct FunctionOperator {
    function: FunctionIR,
    workers: u32,
    cutting: Cutting,
    ghost workers_in: { 1 ≤ workers },
}

impl FunctionOperator {
    /// The operator of a function for so many workers, one or more. It takes chunks of each schema over which the
    /// function is well formed.
    pub fn new(alloc: Global, function: FunctionIR, workers: u32) -> FunctionOperator
        requires { 1 ≤ workers }
        ensures function { result.function ≡ function }
        ensures workers { result.workers ≡ workers }
        ensures size { result.cutting.size ≡ 128 }
        ensures pieces { result.cutting.pieces.items ≡ [] }
    {
        FunctionOperator {
            function,
            workers,
            cutting: Cutting::new(alloc),
        }
    }
}

impl FunctionOperator {
    ghost use Rattle.pipe_source.specs.Operators.{pieces_of, turn_for, Turns};
    ghost use Rattle.pipe_source.specs.Turns.{Fits, is_unpivot};

    /// The next piece for a chunk: which it is, and how the chunk is cut afterwards.
    fn turn(&mut self, alloc: Global, chunk: &DataChunk) -> Result<OperatorResult, AllocError>
        requires applies { Applies self.old.function chunk.now.frame.schema }
        requires size { length chunk.now.frame.rows ≤ 4294967294 }
        requires fits { Fits self.old.function (pieces_of self.old) (length chunk.now.frame.rows) }
        ensures function { self.new.function ≡ self.old.function }
        ensures workers { self.new.workers ≡ self.old.workers }
        ensures turns { IfOk result (Turns (turn_for self.old chunk.now) self.new) }
    {
        match &self.function {
            FunctionIR::Rename { pairs } => {
                let made = renamed_df(alloc, pairs.as_slice(), &chunk.frame)?;
                Ok(OperatorResult::Finished(chunk.with_data(made)))
            }
            FunctionIR::Unpivot { .. } => self.unpivot_turn(alloc, chunk),
        }
    }

    /// The same of an unpivot.
    fn unpivot_turn(
        &mut self,
        alloc: Global,
        chunk: &DataChunk,
    ) -> Result<OperatorResult, AllocError>
        requires unpivot { is_unpivot self.old.function ≡ true }
        requires applies { Applies self.old.function chunk.now.frame.schema }
        requires size { length chunk.now.frame.rows ≤ 4294967294 }
        requires fits { Fits self.old.function (pieces_of self.old) (length chunk.now.frame.rows) }
        ensures function { self.new.function ≡ self.old.function }
        ensures workers { self.new.workers ≡ self.old.workers }
        ensures turns { IfOk result (Turns (turn_for self.old chunk.now) self.new) }
    {
        let height = chunk.frame.height() as u32;
        let Some((from, count)) = self.cutting.next_piece(alloc, height)? else {
            let made = unpivoted_part(alloc, &self.function, &chunk.frame, 0, height)?;
            return Ok(OperatorResult::Finished(chunk.with_data(made)));
        };
        let made = unpivoted_part(alloc, &self.function, &chunk.frame, from, count)?;
        let aim = determine_chunk_size(chunk.frame.width() as u64, self.workers as u64);
        self.cutting.adapt(made.height() as u64, height, aim);
        let piece = chunk.with_data(made);
        if self.cutting.is_done() {
            Ok(OperatorResult::Finished(piece))
        } else {
            Ok(OperatorResult::HaveMoreOutPut(piece))
        }
    }
}

impl Operator for FunctionOperator {
    ghost use Rattle.std.specs.Prelude.{◌≡◌, ℕ, List, [], ◌≤◌, length, true, false, codes};
    ghost use Rattle.std.proofs.Common.{refl};
    ghost use Rattle.pipe_expr.specs.Projections.{function_fields, function_rows};
    ghost use Rattle.pipe_ops.specs.Laws.{never_due};
    ghost use Rattle.pipe_ops.specs.Pieces.{IsPieceOf, Pays, is_more};
    ghost use Rattle.pipe_schema.specs.Rows.{Row};
    ghost use Rattle.pipe_schema.specs.declared.field.Field.{Field};
    ghost use Rattle.pipe_source.specs.Applied.{Applies};
    ghost use Rattle.pipe_source.specs.Turns.{owed_of, Fits};
    ghost use Rattle.pipe_source.specs.Operators.{pieces_of, turn_for, Turns, AnswersFor};
    ghost use Rattle.pipe_source.specs.Laws.{starts_none, owes_none};

    type Shared = ();

    ghost takes = { λ op s. Applies op.function s };

    ghost output = { λ op s. function_fields op.function s };

    ghost flushed = { λ op. [] };

    ghost text = { λ op. codes "function" };

    ghost serves = { λ op s. Unit {0} };

    ghost closed = { λ op s. Unit {0} };

    ghost each = { λ op schema s. function_rows op.function schema };

    ghost rest = { λ op s frame. owed_of op.function (pieces_of op) frame };

    ghost ready = { λ op s frame. Fits op.function (pieces_of op) (length frame.rows) };

    ghost idle = { λ op. pieces_of op ≡ [] };

    ghost answers = { λ op rows s chunk answer. AnswersFor op chunk answer };

    ghost flushing = { λ op. false };

    ghost owed = { λ op s. [] };

    fn execute(
        &mut self,
        alloc: Global,
        context: &PExecutionContext,
        shared: &(),
        chunk: &DataChunk,
    ) -> Result<OperatorResult, AllocError>
        requires takes { Applies self.old.function chunk.now.frame.schema }
        requires size { length chunk.now.frame.rows ≤ 4294967294 }
        requires ready { Fits self.old.function (pieces_of self.old) (length chunk.now.frame.rows) }
        ensures takes { (s : List Field) → Applies self.old.function s →
            Applies self.new.function s }
        ensures output { ◌≡◌ {A = List Field → List Field}
            (λ s. function_fields self.new.function s) (λ s. function_fields self.old.function s) }
        ensures each { ◌≡◌ {A = List Field → Unit {0} → Row → List Row}
            (λ s u. function_rows self.new.function s) (λ s u. function_rows self.old.function s) }
        ensures piece { IfOk result (IsPieceOf (function_fields self.old.function) chunk.now) }
        ensures gives { IfOk result
            (Pays (owed_of self.old.function (pieces_of self.old) chunk.now.frame)
            (owed_of self.new.function (pieces_of self.new) chunk.now.frame)) }
        ensures more { IfOk result
            (λ r. is_more r ≡ true →
            Fits self.new.function (pieces_of self.new) (length chunk.now.frame.rows)) }
        ensures done { IfOk result (λ r. is_more r ≡ false → pieces_of self.new ≡ []) }
        ensures answers { IfOk result (AnswersFor self.old chunk.now) }
        ensures turns { IfOk result (Turns (turn_for self.old chunk.now) self.new) }
    {
        self.turn(alloc, chunk)
    }

    fn flush(
        &mut self,
        alloc: Global,
        context: &PExecutionContext,
        shared: &(),
    ) -> Result<OperatorResult, AllocError> {
        Ok(OperatorResult::NeedsNewData)
    }

    fn must_flush(&self) -> bool {
        false
    }

    fn split(&self, alloc: Global, thread_no: usize) -> Result<Self, AllocError> {
        Ok(FunctionOperator {
            function: self.function.try_clone()?,
            workers: self.workers,
            cutting: self.cutting.split(),
        })
    }

    fn fmt(&self) -> &str {
        "function"
    }

    ghost starts = { λ op s frame h. starts_none op.function (pieces_of op) (length frame.rows) h };

    ghost owes = { λ op s frame h i. owes_none op.function (pieces_of op) frame i };

    ghost flushes = { λ op s h t. never_due h };

    ghost calm = { λ op h. refl };
}
