//! Columns with a name: cells put in and read, another name, cells chosen.

use crate::frames::told::{cell_text, line, not_made, series_text};
use pipe_column::Series;
use pipe_schema::{AnyValue, Bytes, DataType, Text, TryClone};
use std::alloc::{AllocError, Global};
use worked_columns::{INT, series_of};

fn one_cell(alloc: Global) -> Result<String, AllocError> {
    let mut series = Series::new(alloc, Text::from_str(alloc, "b")?, DataType::Binary);
    series.push(AnyValue::Binary(Bytes::from_slice(alloc, &[7, 8])?))?;
    cell_text(alloc, &series.get(0)?)
}

fn renamed(alloc: Global) -> Result<String, AllocError> {
    let mut series = series_of(alloc, "a", INT, &["1", "-"])?;
    series.rename(Text::from_str(alloc, "b")?);
    series_text(alloc, &series)
}

fn taken(alloc: Global) -> Result<String, AllocError> {
    let series = series_of(alloc, "a", INT, &["1", "-"])?;
    if series.len() < 2 {
        return not_made(alloc);
    }
    series_text(alloc, &series.take(&[1, 0, 0])?)
}

fn nulls(alloc: Global) -> Result<String, AllocError> {
    let series = series_of(alloc, "a", DataType::Boolean, &["false", "-"])?;
    if series.len() < 2 {
        return not_made(alloc);
    }
    format!(in alloc; "{} {}", series.is_null(0), series.is_null(1))
}

const EXTREMES: &[&str] = &[
    "-170141183460469231731687303715884105728",
    "-",
    "170141183460469231731687303715884105727",
];

fn extremes(alloc: Global) -> Result<String, AllocError> {
    let series = series_of(alloc, "n", DataType::Int128, EXTREMES)?;
    series_text(alloc, &series.try_clone()?)
}

fn typed(alloc: Global) -> Result<String, AllocError> {
    let series = series_of(alloc, "n", DataType::Int128, EXTREMES)?;
    format!(in alloc;
        "{} {}",
        series.as_column::<i128>().is_some(),
        series.as_column::<i64>().is_some()
    )
}

/// Cells of one value under two types aren't the same.
fn same_cells(alloc: Global) -> Result<String, AllocError> {
    let (narrow, wide) = (AnyValue::Int64(1), AnyValue::Int128(1));
    format!(in alloc;
        "{} {} {} {}",
        narrow.is_same(&wide),
        wide.is_same(&AnyValue::Int128(1)),
        wide.fits(DataType::Int128),
        wide.fits(DataType::Int64)
    )
}

fn tell_types(alloc: Global, answers: &mut String) -> Result<(), AllocError> {
    line(
        answers,
        "the least and the greatest of 128 bits",
        extremes(alloc)?,
    )?;
    line(answers, "columns of i128 and of i64 in them", typed(alloc)?)?;
    line(answers, "1 of 64 bits and 1 of 128", same_cells(alloc)?)
}

pub(crate) fn tell(alloc: Global, answers: &mut String) -> Result<(), AllocError> {
    line(answers, "one cell", one_cell(alloc)?)?;
    line(answers, "another name", renamed(alloc)?)?;
    line(answers, "the second, the first, the first", taken(alloc)?)?;
    line(answers, "false and null", nulls(alloc)?)?;
    tell_types(alloc, answers)
}
