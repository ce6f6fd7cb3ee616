//! Sources: where the chunks of a pipeline begin.

ghost use Rattle.std.specs.Prelude.{◌≡◌, ℕ, ◌+◌, ◌*◌, ◌^◌, ◌<◌, List, length, IfOk, OnOk};
ghost use Rattle.pipe_ops.specs.Batches.{Left, IsAnswer, index_after};

use crate::context::PExecutionContext;
use pipe_frame::DataChunk;
use std::alloc::{AllocError, Global};

/// A chunk, and where it is cut from.
#[derive(Drop)]
pub struct Morsel {
    pub chunk: DataChunk,
    /// The number of the frame among the source's frames, in order.
    pub part: u32,
    /// The place of the first row in that frame.
    pub from: u64,
}

/// An answer of a source.
#[derive(Drop)]
pub enum SourceResult {
    /// Every row is out.
    Finished,
    /// The next chunks, one or more.
    GotMoreData(Vec<Morsel>),
}

/// What gives the rows of frames, chunk by chunk (polars-pipe's `operators::Source`).
pub trait Source: Send + Sync {
    /// What is left of each frame, in order.
    ghost left: { Self → List Left };

    /// The text that stands for it in a pipeline.
    ghost text: { Self → List ℕ };

    /// The next chunks of the first frame that isn't out: as many as are left of it, at most four per worker,
    /// under the next indexes.
    fn get_batches(
        &mut self,
        alloc: Global,
        context: &PExecutionContext,
        next_index: &mut u64,
    ) -> Result<SourceResult, AllocError>
        requires { next_index.old + 4 * context.now.workers < 2 ^ 64 }
        ensures text { text self.new ≡ text self.old }
        ensures gives { IfOk result
            (IsAnswer context.now next_index.old (left self.old) (left self.new)) }
        ensures index { IfOk result (λ r. next_index.new ≡ index_after next_index.old r) };

    /// The text that stands for it in a pipeline.
    fn fmt(&self) -> &str
        ensures { result.now ≡ text self.now };
}
