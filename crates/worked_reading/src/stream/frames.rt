//! Frames of a few rows, and what is put of them.

use pipe_frame::DataFrame;
use pipe_schema::List;
use pipe_stream::MemWriter;
use std::alloc::{AllocError, Global};
use worked_columns::{INT, frame_of};

/// How many rows a block has.
pub(crate) const BLOCK_ROWS: u32 = 2;

/// The cells of the longest frame.
const CELLS: [&str; 6] = ["0", "1", "2", "3", "4", "5"];

/// The frame of so many rows, which are numbered from 0.
pub(crate) fn rows(alloc: Global, count: usize) -> Result<Option<DataFrame>, AllocError> {
    let count = count.min(CELLS.len());
    frame_of(alloc, &[("n", INT, &CELLS[..count])])
}

/// A writer that takes each text in one write, and fails at one call, where there is one of this number.
pub(crate) fn writer(alloc: Global, call: u64) -> Result<MemWriter, AllocError> {
    let mut failing = List::new(alloc);
    failing.push(call)?;
    Ok(MemWriter::new(alloc, 1000, failing))
}
