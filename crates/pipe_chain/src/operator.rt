//! Operators: what becomes of a chunk, and of the keys that it marks.

ghost use Rattle.std.specs.Prelude.{◌≡◌, ℕ, ◌≤◌, List, length, IfOk, IfErr, Bool, true, false};
ghost use Rattle.std.specs.List.{flat_map};
ghost use Rattle.pipe_frame.specs.Frame.{Table};
ghost use Rattle.pipe_schema.specs.Rows.{Row, Same};
ghost use Rattle.pipe_frame.specs.declared.chunk.DataChunk.{DataChunk};
ghost use Rattle.pipe_schema.specs.declared.field.Field.{Field};
ghost use Rattle.pipe_ops.specs.declared.operator.OperatorResult.{OperatorResult};
ghost use Rattle.pipe_ops.specs.Pieces.{IsPieceOf, AnswersUnder, Flushes, is_more};
ghost use Rattle.pipe_chain.specs.Keys.{SameKeys};
ghost use Rattle.pipe_chain.specs.Flow.{Work, Acts, no_acts};
ghost use Rattle.pipe_chain.specs.Executed.{Owed, Pays, MarksSome};

use pipe_frame::DataChunk;
use pipe_ops::{OperatorResult, PExecutionContext};
use std::alloc::{AllocError, Global};

/// What makes rows of rows (polars-pipe's `operators::Operator`). A probe also reads what all lanes share, as a
/// built side, and may mark there by a seat of its own which keys its rows met. After want of memory an operator may
/// only be dropped, or its seat be taken.
pub trait Operator: Send + Sized {
    /// What all lanes share of this operator.
    type Shared: Sync;

    /// It takes chunks of this schema.
    ghost takes: { Self → List Field → Type 0 };

    /// The schema of what it gives for chunks of a schema, and for a flush.
    ghost output: { Self → List Field → List Field };

    ghost flushed: { Self → List Field };

    /// The text that stands for it in a pipeline.
    ghost text: { Self → List ℕ };

    /// A shared value was made for this operator.
    ghost suits: { Self → Self.Shared → Type 0 };

    /// Chunks may be marked in a shared value: it holds the seat that it wants there, if it wants any.
    ghost seated: { Self → Self.Shared → Type 0 };

    /// A shared value was made for this operator, no chunk marks it any more, and what was begun of a flush fits it.
    ghost closed: { Self → Self.Shared → Type 0 };

    /// What it does with rows of a schema, and with keys.
    ghost work: { Self → List Field → Self.Shared → Work };

    /// What its seat did, nothing where it has none.
    ghost acts: { Self → Acts };

    /// What it still owes for a frame, of which it may have given and marked a part.
    ghost rest: { Self → Self.Shared → Table → Owed };

    /// What was begun, if anything was, fits this frame.
    ghost ready: { Self → Self.Shared → Table → Type 0 };

    /// Nothing was begun.
    ghost idle: { Self → Type 0 };

    /// What an answer for a chunk may be besides, where pieces are to have so many rows: which of the three come, and
    /// how many rows a piece has.
    ghost answers: { Self → (rows : ℕ) → Self.Shared → DataChunk → OperatorResult → Type 0 };

    /// Whether a flush is due, and what it still owes of it.
    ghost flushing: { Self → Bool };

    ghost owed: { Self → Self.Shared → List Row };

    /// The next piece for a chunk. After `HaveMoreOutPut` the same chunk is given again.
    fn execute(
        &mut self,
        alloc: Global,
        context: &PExecutionContext,
        shared: &Self::Shared,
        chunk: &DataChunk,
    ) -> Result<OperatorResult, AllocError>
        requires takes { takes self.old chunk.now.frame.schema }
        requires size { length chunk.now.frame.rows ≤ 4294967294 }
        requires suits { suits self.old shared.now }
        requires seated { seated self.old shared.now }
        requires ready { ready self.old shared.now chunk.now.frame }
        ensures takes { (s : List Field) → takes self.old s → takes self.new s }
        ensures output { output self.new ≡ output self.old }
        ensures flushed { flushed self.new ≡ flushed self.old }
        ensures text { text self.new ≡ text self.old }
        ensures suits { (s : Self.Shared) → suits self.old s → suits self.new s }
        ensures seated { (s : Self.Shared) → seated self.old s → seated self.new s }
        ensures closed { (s : Self.Shared) → closed self.old s → closed self.new s }
        ensures work { work self.new ≡ work self.old }
        ensures piece { IfOk result (IsPieceOf (output self.old) chunk.now) }
        ensures gives { IfOk result (Pays (work self.old chunk.now.frame.schema) (acts self.old)
            (acts self.new) (rest self.old) (rest self.new) shared.now chunk.now) }
        ensures answers { IfOk result
            (answers self.old context.now.chunk_rows shared.now chunk.now) }
        ensures memory { IfErr result (λ _. MarksSome (acts self.old) (acts self.new)
            (rest self.old shared.now chunk.now.frame).keys) }
        ensures more { IfOk result
            (λ r. is_more r ≡ true → ready self.new shared.now chunk.now.frame) }
        ensures done { IfOk result (λ r. is_more r ≡ false → idle self.new) };

    /// The next piece of a flush, under the index 0; `NeedsNewData` where none is due.
    fn flush(
        &mut self,
        alloc: Global,
        context: &PExecutionContext,
        shared: &Self::Shared,
    ) -> Result<OperatorResult, AllocError>
        requires closed { closed self.old shared.now }
        ensures takes { (s : List Field) → takes self.old s → takes self.new s }
        ensures output { output self.new ≡ output self.old }
        ensures flushed { flushed self.new ≡ flushed self.old }
        ensures text { text self.new ≡ text self.old }
        ensures suits { (s : Self.Shared) → suits self.old s → suits self.new s }
        ensures seated { (s : Self.Shared) → seated self.old s → seated self.new s }
        ensures closed { closed self.new shared.now }
        ensures work { work self.new ≡ work self.old }
        ensures acts { acts self.new ≡ acts self.old }
        ensures piece { IfOk result (AnswersUnder (flushed self.old) 0) }
        ensures gives { IfOk result (Flushes (owed self.old) (owed self.new) shared.now) }
        ensures more { IfOk result (λ r. is_more r ≡ flushing self.new) }
        ensures done { flushing self.old ≡ true →
            IfOk result (λ r. is_more r ≡ false → idle self.new) }
        ensures undue { flushing self.old ≡ false →
            IfOk result (λ r. r ≡ OperatorResult.NeedsNewData) }
        ensures unmoved { flushing self.old ≡ false → self.new ≡ self.old };

    /// Whether a flush is due.
    fn must_flush(&self) -> bool
        ensures { result ≡ flushing self.now };

    /// An operator of the same kind and settings for a further lane, without a seat; nothing that was begun goes
    /// with it.
    fn split(&self, alloc: Global, thread_no: usize) -> Result<Self, AllocError>
        ensures takes { IfOk result (λ op. (s : List Field) → takes self.now s → takes op s) }
        ensures output { IfOk result (λ op. output op ≡ output self.now) }
        ensures flushed { IfOk result (λ op. flushed op ≡ flushed self.now) }
        ensures text { IfOk result (λ op. text op ≡ text self.now) }
        ensures suits { IfOk result (λ op. (s : Self.Shared) → suits self.now s → suits op s) }
        ensures closed { IfOk result (λ op. (s : Self.Shared) → closed self.now s → closed op s) }
        ensures work { IfOk result (λ op. work op ≡ work self.now) }
        ensures acts { IfOk result (λ op. acts op ≡ no_acts) }
        ensures idle { IfOk result (λ op. idle op) };

    /// The text that stands for it in a pipeline.
    fn fmt(&self) -> &str
        ensures { result.now ≡ text self.now };

    /// An operator that has begun nothing is ready for any frame, owes for it what becomes of its rows, and owes marks
    /// of all keys that these ask for.
    ghost starts: { (op : Self) (s : Self.Shared) (frame : Table) → idle op → ready op s frame };

    ghost owes: { (op : Self) (s : Self.Shared) (frame : Table) → takes op frame.schema → idle op → Same (rest op s frame).rows (flat_map (work op frame.schema s).each frame.rows) };

    ghost asks: { (op : Self) (s : Self.Shared) (frame : Table) → takes op frame.schema → idle op → SameKeys (rest op s frame).keys (flat_map (work op frame.schema s).asks frame.rows) };

    /// A flush gives the schema that chunks give.
    ghost flushes: { (op : Self) (s : List Field) → flushing op ≡ true → takes op s → flushed op ≡ output op s };

    /// Where nothing was begun, no flush is due.
    ghost calm: { (op : Self) → idle op → flushing op ≡ false };
}
