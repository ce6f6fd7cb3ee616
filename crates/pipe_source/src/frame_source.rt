//! A frame as a source.

ghost use Rattle.std.specs.Prelude.{◌≡◌, ℕ, ◌+◌, ◌*◌, ◌^◌, ◌<◌, ◌≤◌, List, [], ◌∷◌, length, drop, IfOk};
ghost use Rattle.pipe_ops.specs.Batches.{passed, IsAnswer, index_after};
ghost use Rattle.pipe_source.specs.Supply.{front_of, left_at};

use pipe_frame::{DataChunk, DataFrame};
use pipe_ops::{Morsel, PExecutionContext, Source, SourceResult};
use std::alloc::{AllocError, Global};
use std::marker::Model;

/// A frame, from a row on (polars-pipe's `DataFrameSource`), seen as what is left of it.
pub struct DataFrameSource {
    frame: DataFrame,
    at: usize,
}

impl Drop for DataFrameSource {
    fn drop(self) {
        let DataFrameSource { frame, at: _ } = self;
        drop(frame);
    }
}

impl Model for DataFrameSource {
    ghost use Rattle.std.specs.Prelude.{length, ◌≤◌};
    ghost use Rattle.pipe_ops.specs.Batches.{Left};
    ghost use Rattle.pipe_source.specs.Supply.{left_at};

    ghost Value = { Left };

    ghost view = { λ s. left_at s.at s.frame };

    ghost invariant = { λ s. s.at ≤ length s.frame.rows };
}

/// The first so many chunks of a frame, from a row on, each of `size` rows but for the last: each cell is copied once.
fn chunks_from(
    alloc: Global,
    frame: &DataFrame,
    from: usize,
    many: u32,
    size: u32,
    index: u64,
) -> Result<Vec<Morsel>, AllocError>
    requires size { 0 < size }
    requires index { index + many < 2 ^ 64 }
    requires from { from ≤ length frame.now.rows }
    ensures { IfOk result
        (λ chunks. chunks.items ≡ front_of many size index (left_at from frame.now)) }
{
    let mut chunks = Vec::new(alloc);
    let mut at = from;
    for i in 0..many {
        if at >= frame.height() {
            return Ok(chunks);
        }
        let width = (frame.height() - at).min(size as usize);
        let part = frame.slice(at, width)?;
        chunks.push(Morsel {
            chunk: DataChunk::new(index + i as u64, part),
            part: 0,
            from: at as u64,
        })?;
        at += width;
    }
    Ok(chunks)
}

impl DataFrameSource {
    /// All rows of a frame.
    pub fn from_df(frame: DataFrame) -> DataFrameSource
        ensures { result ≡ record { from = 0; schema = frame.schema; rows = frame.rows } }
    {
        DataFrameSource { frame, at: 0 }
    }

    /// The next chunks.
    fn front(
        &self,
        alloc: Global,
        many: u32,
        size: u32,
        index: u64,
    ) -> Result<Vec<Morsel>, AllocError>
        requires size { 0 < size }
        requires index { index + many < 2 ^ 64 }
        ensures { IfOk result (λ chunks. chunks.items ≡ front_of many size index self.now) }
    {
        Ok(chunks_from(alloc, &self.frame, self.at, many, size, index)?)
    }

    /// So many rows more are out.
    fn advance(&mut self, many: u64)
        ensures { self.new ≡ passed many self.old }
    {
        let rest = self.frame.height() - self.at;
        if many < rest as u64 {
            self.at += many as usize;
        } else {
            self.at += rest;
        }
    }

    /// The next chunks of the frame: none where every row is out.
    pub(crate) fn next_chunks(
        &mut self,
        alloc: Global,
        context: &PExecutionContext,
        next_index: &mut u64,
    ) -> Result<SourceResult, AllocError>
        requires { next_index.old + 4 * context.now.workers < 2 ^ 64 }
        ensures gives { IfOk result
            (IsAnswer context.now next_index.old (self.old ∷ []) (self.new ∷ [])) }
        ensures index { IfOk result (λ r. next_index.new ≡ index_after next_index.old r) }
        ensures schema { self.new.schema ≡ self.old.schema }
    {
        let many = 4 * context.workers;
        let made = self.front(alloc, many, context.chunk_rows, *next_index)?;
        if made.is_empty() {
            return Ok(SourceResult::Finished);
        }
        *next_index += made.len() as u64;
        self.advance(many as u64 * context.chunk_rows as u64);
        Ok(SourceResult::GotMoreData(made))
    }
}

impl Source for DataFrameSource {
    ghost use Rattle.std.specs.Prelude.{[], ◌∷◌, codes};

    ghost left = { λ s. s ∷ [] };

    ghost text = { λ s. codes "df" };

    fn get_batches(
        &mut self,
        alloc: Global,
        context: &PExecutionContext,
        next_index: &mut u64,
    ) -> Result<SourceResult, AllocError> {
        self.next_chunks(alloc, context, next_index)
    }

    fn fmt(&self) -> &str {
        "df"
    }
}
