//! The order of ordered encodings.

use crate::keys::values::{ASCENDING, Values};
use pipe_rows::{RowsEncoded, SortField, convert_columns};
use std::alloc::{AllocError, Global};
use std::cmp::Ordering;
use std::{io, slice};
use worked_columns::series_of;

/// How two rows of a column are ordered that has null at place 0 and ascending values after it.
fn wanted(field: SortField, i: usize, j: usize) -> Ordering {
    let turned = if i == 0 || j == 0 {
        field.nulls_last
    } else {
        field.descending
    };
    if turned { j.cmp(&i) } else { i.cmp(&j) }
}

/// How many pairs of rows are ordered as they should be.
fn ordered_pairs(rows: &RowsEncoded, field: SortField) -> usize {
    let mut right: usize = 0;
    for i in 0..rows.len() {
        for j in 0..rows.len() {
            if rows.row(i).cmp(rows.row(j)) == wanted(field, i, j) {
                right = right.saturating_add(1);
            }
        }
    }
    right
}

/// How many pairs of a column's rows are ordered as they should be.
fn ordered_in(alloc: Global, values: &Values, field: SortField) -> Result<usize, AllocError> {
    let (_, dtype, cells) = values;
    let column = series_of(alloc, "", *dtype, cells)?;
    let rows = convert_columns(alloc, slice::from_ref(&column), &[field])?;
    Ok(ordered_pairs(&rows, field))
}

/// Prints how many pairs of a column's rows are ordered as they should be, under each mix of flags.
fn print_column(rt: &impl Print, alloc: Global, values: &Values) -> io::Result<()> {
    let name = values.0;
    for descending in [false, true] {
        for nulls_last in [false, true] {
            let right = ordered_in(
                alloc,
                values,
                SortField {
                    descending,
                    nulls_last,
                },
            )?;
            println!(rt; "order of {name}, {descending}, {nulls_last}: {right}")?;
        }
    }
    Ok(())
}

/// Prints the orders.
pub fn print_all(rt: &impl Print, alloc: Global) -> io::Result<()> {
    for values in ASCENDING {
        print_column(rt, alloc, values)?;
    }
    Ok(())
}
