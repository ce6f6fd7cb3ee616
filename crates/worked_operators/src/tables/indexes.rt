//! Indexes and encoded rows.

use pipe_index::KeyIndex;
use pipe_rows::RowsEncoded;
use pipe_schema::Bytes;
use std::alloc::{AllocError, Global};

/// How many slots an index with room for so many keys has.
fn size_line(alloc: Global, keys: u32) -> Result<String, AllocError> {
    let size = KeyIndex::with_keys(alloc, keys)?.slots().len();
    format!(in alloc; "room for {keys}: {size} slots\n")
}

/// Encoded rows of one row of one byte.
fn one_row(alloc: Global, byte: u8) -> Result<RowsEncoded, AllocError> {
    let bytes = Bytes::from_vec(vec![in alloc; byte; 1]?);
    RowsEncoded::from_rows(alloc, &[bytes])
}

/// The bytes of rows that were put together.
fn appended_line(alloc: Global) -> Result<String, AllocError> {
    let mut rows = one_row(alloc, 1)?;
    rows.append(&one_row(alloc, 0)?)?;
    let mut line = String::from_str(alloc, "00 put behind 01:")?;
    for i in 0..rows.len() {
        let digits = hex::encode(alloc, rows.row(i))?;
        line.push_str(" ")?;
        line.push_str(digits.as_str())?;
    }
    line.push_str("\n")?;
    Ok(line)
}

/// The lines of all cases.
pub(crate) fn index_lines(alloc: Global) -> Result<String, AllocError> {
    let mut lines = size_line(alloc, 0)?;
    lines.push_str(size_line(alloc, 3)?.as_str())?;
    lines.push_str(appended_line(alloc)?.as_str())?;
    Ok(lines)
}
