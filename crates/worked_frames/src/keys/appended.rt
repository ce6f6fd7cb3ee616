//! Encoded rows behind others.

use crate::keys::digits::{digits_of, rows_of};
use pipe_rows::convert_columns_no_order;
use pipe_schema::DataType;
use std::alloc::Global;
use std::{io, slice};
use worked_columns::series_of;

/// Prints a row behind another.
fn print_row_behind(rt: &impl Print, alloc: Global) -> io::Result<()> {
    let mut rows = rows_of(alloc, &["01"])?;
    rows.append(&rows_of(alloc, &["00"])?)?;
    println!(rt; "00 behind 01:{}", digits_of(alloc, &rows)?)
}

/// Prints the rows of a column behind a row.
fn print_marks_behind(rt: &impl Print, alloc: Global) -> io::Result<()> {
    let column = series_of(alloc, "", DataType::Boolean, &["-", "true"])?;
    let mut rows = rows_of(alloc, &["", "abcd"])?;
    rows.append(&convert_columns_no_order(alloc, slice::from_ref(&column))?)?;
    println!(rt; "rows and marks behind rows:{}", digits_of(alloc, &rows)?)
}

/// Prints rows behind rows.
pub fn print_all(rt: &impl Print, alloc: Global) -> io::Result<()> {
    print_row_behind(rt, alloc)?;
    print_marks_behind(rt, alloc)
}
