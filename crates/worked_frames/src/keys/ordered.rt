//! Ordered encodings, and what they decode to.

use crate::keys::digits::digits_of;
use crate::keys::values::{VALUES, Values};
use pipe_column::Series;
use pipe_rows::{RowsEncoded, RowsError, SortField, convert_columns, decode_rows};
use pipe_schema::DataType;
use std::alloc::{AllocError, Global};
use std::{io, slice};
use worked_columns::series_of;

/// Each mix of flags and its name.
const FIELDS: &[(&str, SortField)] = &[
    (
        "ascending, nulls first",
        SortField {
            descending: false,
            nulls_last: false,
        },
    ),
    (
        "ascending, nulls last",
        SortField {
            descending: false,
            nulls_last: true,
        },
    ),
    (
        "descending, nulls first",
        SortField {
            descending: true,
            nulls_last: false,
        },
    ),
    (
        "descending, nulls last",
        SortField {
            descending: true,
            nulls_last: true,
        },
    ),
];

/// How many cells of two columns are the same, place by place.
fn same_cells(a: &Series, b: &Series) -> Result<usize, AllocError> {
    let mut same: usize = 0;
    for i in 0..a.len().min(b.len()) {
        if a.get(i)?.is_same(&b.get(i)?) {
            same = same.saturating_add(1);
        }
    }
    Ok(same)
}

/// How many of the column's cells the rows decode to, none where they are no encodings.
fn decoded_cells(
    alloc: Global,
    rows: &RowsEncoded,
    column: &Series,
    field: SortField,
) -> Result<usize, AllocError> {
    match decode_rows(alloc, rows, &[column.dtype()], &[field]) {
        Ok(columns) => match columns.first() {
            Some(decoded) => same_cells(decoded, column),
            None => Ok(0),
        },
        Err(RowsError::NotARow(_)) => Ok(0),
        Err(RowsError::Memory) => Err(AllocError),
    }
}

/// Prints the encodings of a column's cells, and how many of them they decode to.
fn print_column(
    rt: &impl Print,
    alloc: Global,
    values: &Values,
    name: &str,
    field: SortField,
) -> io::Result<()> {
    let (dtype_name, dtype, cells) = values;
    let column = series_of(alloc, "", *dtype, cells)?;
    let rows = convert_columns(alloc, slice::from_ref(&column), &[field])?;
    let decoded = decoded_cells(alloc, &rows, &column, field)?;
    println!(rt;
        "ordered {dtype_name}, {name}:{}, {decoded} decoded",
        digits_of(alloc, &rows)?
    )
}

/// Prints the encodings of the rows of two columns, the second descending with nulls last.
fn print_pair(rt: &impl Print, alloc: Global, columns: &[Series; 2]) -> io::Result<()> {
    if columns[0].len() != columns[1].len() {
        return Ok(());
    }
    let fields = [
        SortField {
            descending: false,
            nulls_last: false,
        },
        SortField {
            descending: true,
            nulls_last: true,
        },
    ];
    let rows = convert_columns(alloc, columns, &fields)?;
    println!(rt;
        "ordered (Int64, String descending, nulls last):{}",
        digits_of(alloc, &rows)?
    )
}

/// Prints the ordered encodings.
pub fn print_all(rt: &impl Print, alloc: Global) -> io::Result<()> {
    for (name, field) in FIELDS {
        for values in VALUES {
            print_column(rt, alloc, values, name, *field)?;
        }
    }
    let numbers = series_of(alloc, "", DataType::Int64, &["-", "1"])?;
    let texts = series_of(alloc, "", DataType::String, &["-", "a"])?;
    print_pair(rt, alloc, &[numbers, texts])
}
