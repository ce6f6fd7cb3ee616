//! The lines of rows.

use pipe_column::Series;
use pipe_frame::{DataFrame, Row};
use pipe_job::{push_head_line, push_rows};
use pipe_schema::{Field, TryClone};
use std::alloc::{AllocError, Global};

/// Adds the cell of a row at a place.
fn push_cell(series: &mut Series, row: &Row, place: usize) -> Result<(), AllocError> {
    if let Some(cell) = row.as_slice().get(place) {
        if cell.fits(series.dtype()) {
            series.push(cell.try_clone()?)?;
        }
    }
    Ok(())
}

/// The column of a place.
fn column_of(
    alloc: Global,
    field: &Field,
    place: usize,
    rows: &[Row],
) -> Result<Series, AllocError> {
    let mut series = Series::new(alloc, field.name.try_clone()?, field.dtype);
    for row in rows {
        push_cell(&mut series, row, place)?;
    }
    Ok(series)
}

/// The columns of some rows.
fn columns_of(alloc: Global, fields: &[Field], rows: &[Row]) -> Result<Vec<Series>, AllocError> {
    let mut columns = Vec::new(alloc);
    for (place, field) in fields.iter().enumerate() {
        columns.push(column_of(alloc, field, place, rows)?)?;
    }
    Ok(columns)
}

/// The line of the column names, and those of the rows of a frame.
fn text_of_frame(alloc: Global, frame: &DataFrame) -> Result<Vec<u8>, AllocError> {
    let mut text = Vec::new(alloc);
    push_head_line(&mut text, frame.schema())?;
    push_rows(&mut text, frame)?;
    Ok(text)
}

/// The line of the column names, and those of the rows of a plan without a fault, whose columns make a frame.
pub(crate) fn text_of_rows(
    alloc: Global,
    fields: &[Field],
    rows: &[Row],
) -> Result<Vec<u8>, AllocError> {
    match DataFrame::new(alloc, columns_of(alloc, fields, rows)?) {
        Ok(frame) => text_of_frame(alloc, &frame),
        Err(_) => Err(AllocError),
    }
}
