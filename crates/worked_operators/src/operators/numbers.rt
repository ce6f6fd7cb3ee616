//! Chunk sizes, and the pieces of chunks.

use pipe_ops::{combine_offsets, determine_chunk_size, split_offsets};
use std::alloc::{AllocError, Global};
use std::collections::VecDeque;

/// Chunk sizes for some columns and threads.
pub(crate) fn chunk_sizes(alloc: Global) -> Result<String, AllocError> {
    let few = determine_chunk_size(10, 12);
    let alone = determine_chunk_size(10, 1);
    let wide = determine_chunk_size(100, 24);
    format!(in alloc; "# chunk sizes\n{few} {alone} {wide}\n")
}

fn pieces_text(alloc: Global, pieces: &VecDeque<(u32, u32)>) -> Result<String, AllocError> {
    let mut text = String::new(alloc);
    for (start, rows) in pieces {
        let piece = format!(in alloc; "({start},{rows})")?;
        text.push_str(piece.as_str())?;
    }
    text.push_str("\n")?;
    Ok(text)
}

/// Ten rows in three pieces.
pub(crate) fn split_pieces(alloc: Global) -> Result<String, AllocError> {
    let pieces = split_offsets(alloc, 10, 3)?;
    let text = pieces_text(alloc, &pieces)?;
    format!(in alloc; "# 10 rows in 3 pieces\n{text}")
}

/// Ten rows in three pieces, joined two by two.
pub(crate) fn joined_pieces(alloc: Global) -> Result<String, AllocError> {
    let mut pieces = split_offsets(alloc, 10, 3)?;
    combine_offsets(&mut pieces);
    let text = pieces_text(alloc, &pieces)?;
    format!(in alloc; "# joined two by two\n{text}")
}
