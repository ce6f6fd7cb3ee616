//! Equality encodings.

use crate::keys::digits::digits_of;
use crate::keys::values::{VALUES, Values};
use pipe_column::Series;
use pipe_rows::convert_columns_no_order;
use pipe_schema::DataType;
use std::alloc::Global;
use std::{io, slice};
use worked_columns::series_of;

/// Prints the encodings of a column's cells.
fn print_column(rt: &impl Print, alloc: Global, values: &Values) -> io::Result<()> {
    let (name, dtype, cells) = values;
    let column = series_of(alloc, "", *dtype, cells)?;
    let rows = convert_columns_no_order(alloc, slice::from_ref(&column))?;
    println!(rt; "equality {name}:{}", digits_of(alloc, &rows)?)
}

/// Prints the encodings of the rows of two columns.
fn print_pair(rt: &impl Print, alloc: Global, columns: &[Series; 2]) -> io::Result<()> {
    if columns[0].len() != columns[1].len() {
        return Ok(());
    }
    let rows = convert_columns_no_order(alloc, columns)?;
    println!(rt; "equality (Int64, String):{}", digits_of(alloc, &rows)?)
}

/// Prints the equality encodings.
pub fn print_all(rt: &impl Print, alloc: Global) -> io::Result<()> {
    for values in VALUES {
        print_column(rt, alloc, values)?;
    }
    let numbers = series_of(alloc, "", DataType::Int64, &["-", "1", "-"])?;
    let texts = series_of(alloc, "", DataType::String, &["-", "a", "b"])?;
    print_pair(rt, alloc, &[numbers, texts])
}
