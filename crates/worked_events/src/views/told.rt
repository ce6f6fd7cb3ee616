//! Rows as text.

use pipe_frame::Row;
use pipe_schema::AnyValue;
use std::alloc::{AllocError, Global};

/// A cell: `-` for null, a number or a text as it is, and a dot for a cell of another type.
fn push_cell(told: &mut String, alloc: Global, cell: &AnyValue) -> Result<(), AllocError> {
    match cell {
        AnyValue::Null => told.push_str("-"),
        AnyValue::Int64(x) => told.push_str(x.to_string(alloc)?.as_str()),
        AnyValue::String(text) => told.push_str(text.as_str()),
        _ => told.push_str("."),
    }
}

/// A line of a row's cells, with spaces between.
pub fn push_row(told: &mut String, alloc: Global, row: &Row) -> Result<(), AllocError> {
    told.push_str(" ")?;
    for cell in row.as_slice() {
        told.push_str(" ")?;
        push_cell(told, alloc, cell)?;
    }
    told.push_str("\n")
}

/// A line of rows under a word.
pub fn push_rows(
    told: &mut String,
    alloc: Global,
    word: &str,
    rows: &[Row],
) -> Result<(), AllocError> {
    told.push_str(word)?;
    told.push_str("\n")?;
    for row in rows {
        push_row(told, alloc, row)?;
    }
    Ok(())
}
