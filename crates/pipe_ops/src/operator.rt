//! Operators: what becomes of a chunk, row by row.

ghost use Rattle.std.specs.Prelude.{◌≡◌, ℕ, ◌≤◌, List, length, IfOk, Bool, true, false};
ghost use Rattle.pipe_frame.specs.Frame.{Table};
ghost use Rattle.pipe_schema.specs.Rows.{Row, Same};
ghost use Rattle.pipe_frame.specs.declared.chunk.DataChunk as chunk;
ghost use Rattle.pipe_schema.specs.declared.field.Field.{Field};
ghost use Rattle.pipe_ops.specs.Pieces.{IsPieceOf, AnswersUnder, Gives, Flushes, is_more, all_of};
ghost use Rattle.pipe_ops.specs.declared.operator.OperatorResult as answer;

use crate::context::PExecutionContext;
use pipe_frame::DataChunk;
use std::alloc::{AllocError, Global};

/// An answer of an operator.
#[derive(Drop)]
pub enum OperatorResult {
    /// The chunk gives no row; another is wanted.
    NeedsNewData,
    /// A piece; the same chunk is to be given again, since more of it is left.
    HaveMoreOutPut(DataChunk),
    /// The last piece, which may have no row.
    Finished(DataChunk),
}

/// What makes rows of rows, one by one (polars-pipe's `operators::Operator`). A probe also reads what all lanes
/// share, as a built side. After want of memory an operator may only be dropped.
pub trait Operator: Send + Sync + Sized {
    /// What all lanes share.
    type Shared: Sync;

    /// It takes chunks of this schema.
    ghost takes: { Self → List Field → Type 0 };

    /// The schema of what it gives for chunks of a schema, and for a flush.
    ghost output: { Self → List Field → List Field };

    ghost flushed: { Self → List Field };

    /// The text that stands for it in a pipeline.
    ghost text: { Self → List ℕ };

    /// A shared value was made for this operator, and chunks may read it.
    ghost serves: { Self → Self.Shared → Type 0 };

    /// A shared value was made for this operator, no chunk marks it any more, and what was begun of a flush fits it.
    ghost closed: { Self → Self.Shared → Type 0 };

    /// What becomes of a row of a schema.
    ghost each: { Self → List Field → Self.Shared → Row → List Row };

    /// What it still owes for a frame, of whose rows it may have given a part.
    ghost rest: { Self → Self.Shared → Table → List Row };

    /// What was begun, if anything was, fits this frame.
    ghost ready: { Self → Self.Shared → Table → Type 0 };

    /// Nothing was begun.
    ghost idle: { Self → Type 0 };

    /// What an answer for a chunk may be besides, where pieces are to have so many rows: which of the three come,
    /// and how many rows a piece has.
    ghost answers: { Self → (rows : ℕ) → Self.Shared → chunk.DataChunk → answer.OperatorResult → Type 0 };

    /// Whether a flush is due, and what it still owes of it.
    ghost flushing: { Self → Bool };

    ghost owed: { Self → Self.Shared → List Row };

    /// The next piece for a chunk. After `HaveMoreOutPut` the same chunk is given again.
    fn execute(
        &mut self,
        alloc: Global,
        context: &PExecutionContext,
        shared: &Self::Shared,
        chunk: &DataChunk,
    ) -> Result<OperatorResult, AllocError>
        requires takes { takes self.old chunk.now.frame.schema }
        requires size { length chunk.now.frame.rows ≤ 4294967294 }
        requires serves { serves self.old shared.now }
        requires ready { ready self.old shared.now chunk.now.frame }
        ensures takes { (s : List Field) → takes self.old s → takes self.new s }
        ensures output { output self.new ≡ output self.old }
        ensures flushed { flushed self.new ≡ flushed self.old }
        ensures text { text self.new ≡ text self.old }
        ensures serves { (s : Self.Shared) → serves self.old s → serves self.new s }
        ensures closed { (s : Self.Shared) → closed self.old s → closed self.new s }
        ensures each { each self.new ≡ each self.old }
        ensures piece { IfOk result (IsPieceOf (output self.old) chunk.now) }
        ensures gives { IfOk result (Gives (rest self.old) (rest self.new) shared.now chunk.now) }
        ensures answers { IfOk result
            (answers self.old context.now.chunk_rows shared.now chunk.now) }
        ensures more { IfOk result
            (λ r. is_more r ≡ true → ready self.new shared.now chunk.now.frame) }
        ensures done { IfOk result (λ r. is_more r ≡ false → idle self.new) };

    /// The next piece of a flush, under the index 0; `NeedsNewData` where none is due.
    fn flush(
        &mut self,
        alloc: Global,
        context: &PExecutionContext,
        shared: &Self::Shared,
    ) -> Result<OperatorResult, AllocError>
        requires closed { closed self.old shared.now }
        ensures takes { (s : List Field) → takes self.old s → takes self.new s }
        ensures output { output self.new ≡ output self.old }
        ensures flushed { flushed self.new ≡ flushed self.old }
        ensures text { text self.new ≡ text self.old }
        ensures serves { (s : Self.Shared) → serves self.old s → serves self.new s }
        ensures closed { closed self.new shared.now }
        ensures each { each self.new ≡ each self.old }
        ensures piece { IfOk result (AnswersUnder (flushed self.old) 0) }
        ensures gives { IfOk result (Flushes (owed self.old) (owed self.new) shared.now) }
        ensures more { IfOk result (λ r. is_more r ≡ flushing self.new) }
        ensures done { flushing self.old ≡ true →
            IfOk result (λ r. is_more r ≡ false → idle self.new) }
        ensures undue { flushing self.old ≡ false →
            IfOk result (λ r. r ≡ OperatorResult.NeedsNewData) }
        ensures unmoved { flushing self.old ≡ false → self.new ≡ self.old };

    /// Whether a flush is due.
    fn must_flush(&self) -> bool
        ensures { result ≡ flushing self.now };

    /// An operator of the same kind and settings for a further lane; nothing that was begun goes with it.
    fn split(&self, alloc: Global, thread_no: usize) -> Result<Self, AllocError>
        ensures takes { IfOk result (λ op. (s : List Field) → takes self.now s → takes op s) }
        ensures output { IfOk result (λ op. output op ≡ output self.now) }
        ensures flushed { IfOk result (λ op. flushed op ≡ flushed self.now) }
        ensures text { IfOk result (λ op. text op ≡ text self.now) }
        ensures serves { IfOk result (λ op. (s : Self.Shared) → serves self.now s → serves op s) }
        ensures closed { IfOk result (λ op. (s : Self.Shared) → closed self.now s → closed op s) }
        ensures each { IfOk result (λ op. each op ≡ each self.now) }
        ensures idle { IfOk result (λ op. idle op) };

    /// The text that stands for it in a pipeline.
    fn fmt(&self) -> &str
        ensures { result.now ≡ text self.now };

    /// An operator that has begun nothing is ready for any frame, and owes for it what becomes of its rows.
    ghost starts: { (op : Self) (s : Self.Shared) (frame : Table) → idle op → ready op s frame };

    ghost owes: { (op : Self) (s : Self.Shared) (frame : Table) → takes op frame.schema → idle op → Same (rest op s frame) (all_of (each op frame.schema s) frame) };

    /// A flush gives the schema that chunks give.
    ghost flushes: { (op : Self) (s : List Field) → flushing op ≡ true → takes op s → flushed op ≡ output op s };

    /// Where nothing was begun, no flush is due.
    ghost calm: { (op : Self) → idle op → flushing op ≡ false };
}
