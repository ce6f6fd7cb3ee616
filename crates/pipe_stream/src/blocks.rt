//! The blocks of a frame: how many there are, and the text of each.

ghost use Rattle.std.specs.Prelude.{◌≡◌, ◌≤◌, ◌<◌, ◌-◌, ◌++◌, ◌*◌, length, take, IfOk, OnOk, flat_map};
ghost use Rattle.std.specs.List.{range_with_len};
ghost use Rattle.pipe_stream.specs.Blocks.{block_count, block_text, is_of};

use crate::render::Lines;
use pipe_frame::DataFrame;
use pipe_schema::Bytes;
use std::alloc::{AllocError, Global};

/// A frame that is cut into blocks of so many rows, and what makes lines of these.
#[derive(Drop)]
pub(crate) struct Source<'a, R> {
    pub frame: &'a DataFrame,
    pub render: &'a R,
    pub block_rows: u32,
    /// How many blocks it has.
    pub count: u32,
}

/// How many blocks so many rows have.
pub(crate) fn block_count(height: usize, block_rows: u32) -> u32
    requires rows { 0 < block_rows }
    requires height { height ≤ 4294967294 }
    ensures { result ≡ block_count height block_rows }
{
    let rows = block_rows as u64;
    ((height as u64 + (rows - 1)) / rows) as u32
}

/// Whether a block is of the worker of the odd ones, or of that of the even ones.
pub(crate) fn is_of(odd: bool, number: u32) -> bool
    ensures { result ≡ is_of odd number }
{
    if odd {
        number % 2 == 1
    } else {
        number % 2 == 0
    }
}

/// Where a block that begins at a place ends.
#[tactic(auto, using(crate::proofs::LineLemmas::places_whole, crate::proofs::LineLemmas::places_rest))]
fn block_end(height: usize, from: usize, block_rows: u32) -> usize
    requires from { from ≤ height }
    requires height { height ≤ 4294967294 }
    ensures within { result ≤ height }
    ensures places { range_with_len from (result - from)
        ≡ take block_rows (range_with_len from (height - from)) }
{
    let rows = block_rows as usize;
    if height - from < rows {
        height
    } else {
        from + rows
    }
}

/// Appends the lines of the rows from one place to another.
#[tactic(auto, using(crate::proofs::LineLemmas::lines_next, crate::proofs::LineLemmas::lines_end))]
fn push_lines<R: Lines>(
    alloc: Global,
    frame: &DataFrame,
    render: &R,
    from: usize,
    to: usize,
    text: &mut Vec<u8>,
) -> Result<(), AllocError>
    requires { to ≤ length frame.now.rows }
    ensures { OnOk result
        (text.new.items
        ≡ text.old.items
        ++ flat_map (R.line_at render.now frame.now) (range_with_len from (to - from))) }
{
    for i in from..to {
        let line = render.line_at(alloc, frame, i)?;
        text.extend_from_slice(line.as_slice())?;
    }
    Ok(())
}

/// The text of a block.
#[tactic(auto, using(crate::proofs::LineLemmas::whole_text))]
pub(crate) fn block_text<R: Lines>(
    alloc: Global,
    source: &Source<R>,
    number: u32,
) -> Result<Bytes, AllocError>
    requires height { length source.now.frame.now.rows ≤ 4294967294 }
    requires within { number * source.now.block_rows ≤ length source.now.frame.now.rows }
    ensures { IfOk result (λ text. text
        ≡ block_text (R.line_at source.now.render.now source.now.frame.now)
        (length source.now.frame.now.rows) source.now.block_rows number) }
{
    let from = number as usize * source.block_rows as usize;
    let to = block_end(source.frame.height(), from, source.block_rows);
    let mut text = Vec::new(alloc);
    push_lines(alloc, source.frame, source.render, from, to, &mut text)?;
    Ok(Bytes::from_vec(text))
}
