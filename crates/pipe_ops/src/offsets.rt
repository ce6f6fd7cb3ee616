//! Offsets: the pieces of a chunk, from row to row.

ghost use Rattle.std.specs.Prelude.{◌≡◌, ◌+◌, ◌≤◌, length, take, drop, IfOk};
ghost use Rattle.pipe_ops.specs.Offsets.{split_pieces, joined_pieces, Covers, Adjoin};

use std::alloc::{AllocError, Global};
use std::collections::VecDeque;

/// So many pieces of so many rows, each with where it begins and how many rows it has: `len / n` each, and the
/// last takes the rest (polars-core's `_split_offsets`).
pub fn split_offsets(alloc: Global, len: u32, n: u32) -> Result<VecDeque<(u32, u32)>, AllocError>
    requires some { 1 ≤ n }
    requires few { n ≤ len }
    ensures pieces { IfOk result (λ pieces. pieces.items ≡ split_pieces len n) }
    ensures covers { IfOk result (λ pieces. Covers 0 pieces.items len) }
{
    let size = len / n;
    let mut pieces = VecDeque::new(alloc);
    let mut at = 0;
    for _ in 1..n {
        pieces.push_back((at, size))?;
        at += size;
    }
    pieces.push_back((at, len - at))?;
    Ok(pieces)
}

/// Joins neighbouring pieces two by two, and keeps an odd last one (polars-pipe's `combine_offsets`). Each piece
/// begins where the one before it ends.
pub fn combine_offsets(offsets: &mut VecDeque<(u32, u32)>)
    requires { Adjoin offsets.old.items }
    ensures { offsets.new.items ≡ joined_pieces offsets.old.items }
{
    let count = offsets.len();
    for i in 0..count / 2 {
        let (start, rows) = offsets[2 * i];
        let (_, more) = offsets[2 * i + 1];
        offsets[i] = (start, rows + more);
    }
    if count % 2 == 1 {
        offsets[count / 2] = offsets[count - 1];
    }
    offsets.truncate(count / 2 + count % 2);
}
