//! Chunks of which each stands behind the one before it, in one frame.

ghost use Rattle.std.specs.Prelude.{◌≡◌, ◌≤◌, true, [], ◌∷◌, ◌++◌, All, length, IfOk, OnOk, OnErr};
ghost use Rattle.std.specs.List.{flat_map, sum_by};
ghost use Rattle.std.specs.List.Sorted.{IsNonDecreasingBy};
ghost use Rattle.pipe_frame.specs.Chunks.{HasSchema, chunk_rows};
ghost use Rattle.pipe_frame.specs.declared.chunk.DataChunk.{DataChunk};
ghost use Rattle.pipe_source.specs.Ordered.{index_in};
ghost use Rattle.pipe_source.specs.Runs.{cut_rows, height_in, BeginsFrom, IsFrom, IsUpTo};

use pipe_frame::{DataChunk, DataFrame};
use std::alloc::{AllocError, Global};
use std::marker::Model;
use std::mem::replace;

/// A run of several chunks has at most as many rows: a large chunk is a run of its own, whose rows stay where they are
/// and take no more memory than they need.
const MANY_ROWS: usize = 16_384;

/// A chunk of a run: its index, and how many of the rows are its.
#[derive(Clone, Copy, Debug)]
pub(crate) struct Piece {
    pub(crate) chunk_index: u64,
    pub(crate) height: usize,
}

/// Chunks whose indexes don't fall. Their rows are those of one frame, which has the index of the last chunk, and to
/// which a further chunk's rows are copied: what stands there already stays where it is while there is room.
pub(crate) struct ChunkRun {
    all: DataChunk,
    pieces: Vec<Piece>,
}

impl Drop for ChunkRun {
    fn drop(self) {
        let ChunkRun { all, pieces } = self;
        drop(all);
        drop(pieces);
    }
}

impl Model for ChunkRun {
    ghost use Rattle.pipe_source.specs.Runs.{Run, IsRun, run_of};

    ghost Value = { Run };

    ghost view = { λ r. run_of r.all r.pieces.items };

    ghost invariant = { λ r. IsRun r.all r.pieces.items };
}

/// The frame of a chunk.
fn frame_of(alloc: Global, mut chunk: DataChunk) -> Result<DataFrame, AllocError>
    ensures { IfOk result (λ frame. frame ≡ chunk.frame) }
{
    let empty = DataFrame::empty(alloc, chunk.frame.schema())?;
    Ok(replace(&mut chunk.frame, empty))
}

impl ChunkRun {
    /// A run of one chunk.
    pub(crate) fn new(alloc: Global, chunk: DataChunk) -> Result<ChunkRun, AllocError>
        ensures schema { IfOk result (λ run. run.schema ≡ chunk.frame.schema) }
        ensures chunks { IfOk result (λ run. run.chunks ≡ chunk ∷ []) }
    {
        let piece = Piece {
            chunk_index: chunk.chunk_index,
            height: chunk.frame.height(),
        };
        let mut pieces = Vec::new(alloc);
        pieces.push(piece)?;
        Ok(ChunkRun { all: chunk, pieces })
    }

    /// Whether the run takes a chunk: one of the same index or of a later one, where both together have few rows.
    pub(crate) fn takes(&self, chunk: &DataChunk) -> bool
        ensures { result ≡ true → self.now.last ≤ chunk.now.chunk_index }
    {
        let rows = self.all.frame.height().saturating_add(chunk.frame.height());
        self.all.chunk_index <= chunk.chunk_index && rows <= MANY_ROWS
    }

    /// Whether none of the chunks stands before this index, and the last is told no lower one.
    pub(crate) fn is_behind(&self, index: u64) -> bool
        ensures from { result ≡ true → All (IsFrom index) self.now.chunks }
        ensures last { result ≡ true → index ≤ self.now.last }
        ensures rises { IsNonDecreasingBy index_in self.now.chunks }
    {
        index <= self.all.chunk_index && begins_from(self.pieces.as_slice(), index)
    }

    /// The highest index that a chunk has.
    pub(crate) fn last(&self) -> u64
        ensures last { result ≡ self.now.last }
        ensures below { All (IsUpTo self.now.last) self.now.chunks }
    {
        self.all.chunk_index
    }

    /// Puts a chunk behind the others, whose indexes aren't higher.
    pub(crate) fn add(&mut self, chunk: &DataChunk) -> Result<(), AllocError>
        requires schema { HasSchema self.old.schema chunk.now }
        requires index { self.old.last ≤ chunk.now.chunk_index }
        ensures schema { self.new.schema ≡ self.old.schema }
        ensures chunks { OnOk result (self.new.chunks ≡ self.old.chunks ++ chunk.now ∷ []) }
        ensures err { OnErr result (self.new ≡ self.old) }
    {
        let piece = Piece {
            chunk_index: chunk.chunk_index,
            height: chunk.frame.height(),
        };
        self.pieces.reserve(1)?;
        self.all.frame.vstack_mut(&chunk.frame)?;
        self.pieces.push_reserved(piece);
        self.all.chunk_index = piece.chunk_index;
        Ok(())
    }

    /// All rows as one chunk, without a copy.
    pub(crate) fn into_chunk(self) -> DataChunk
        ensures schema { result.frame.schema ≡ self.schema }
        ensures rows { result.frame.rows ≡ flat_map chunk_rows self.chunks }
    {
        let ChunkRun { all, pieces } = self;
        drop(pieces);
        all
    }

    /// Puts the chunks behind others. Several share the memory of the run, which is given back with the last of them.
    pub(crate) fn cut_into(
        self,
        alloc: Global,
        chunks: &mut Vec<DataChunk>,
    ) -> Result<(), AllocError>
        ensures chunks { OnOk result (chunks.new.items ≡ chunks.old.items ++ self.chunks) }
        ensures schema { OnOk result (All (HasSchema self.schema) self.chunks) }
    {
        let ChunkRun { all, pieces } = self;
        let frame = frame_of(alloc, all)?;
        cut_frame(frame, pieces.as_slice(), chunks)?;
        Ok(())
    }
}

/// Whether the first of some chunks doesn't stand before this index.
fn begins_from(pieces: &[Piece], index: u64) -> bool
    ensures { result ≡ true → BeginsFrom index pieces.now }
{
    match pieces {
        [] => true,
        [first, ..] => index <= first.chunk_index,
    }
}

/// Puts the chunks behind others that are these pieces of a frame: the frame itself where it is the only piece.
fn cut_frame(
    frame: DataFrame,
    pieces: &[Piece],
    chunks: &mut Vec<DataChunk>,
) -> Result<(), AllocError>
    requires { sum_by height_in pieces.now ≡ length frame.rows }
    ensures { OnOk result (chunks.new.items ≡ chunks.old.items
        ++ cut_rows frame.schema frame.rows pieces.now) }
{
    if pieces.len() == 1 {
        let only = DataChunk::new(pieces[0].chunk_index, frame);
        chunks.push(only)?;
        return Ok(());
    }
    let frame = frame.shared()?;
    cut_pieces(&frame, pieces, chunks)?;
    Ok(())
}

/// Puts the chunks behind others that are these pieces of a frame.
fn cut_pieces(
    frame: &DataFrame,
    pieces: &[Piece],
    chunks: &mut Vec<DataChunk>,
) -> Result<(), AllocError>
    requires { sum_by height_in pieces.now ≡ length frame.now.rows }
    ensures { OnOk result (chunks.new.items ≡ chunks.old.items
        ++ cut_rows frame.now.schema frame.now.rows pieces.now) }
{
    let _ = frame.height();
    let mut at = 0;
    for piece in pieces {
        let part = frame.slice(at, piece.height)?;
        chunks.push(DataChunk::new(piece.chunk_index, part))?;
        at += piece.height;
    }
    Ok(())
}
