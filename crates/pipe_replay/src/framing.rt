//! Rows as frames.

ghost use Rattle.std.specs.Prelude.{◌≡◌, ◌<◌, ◌^◌, true, length, All, IfOk, IfSome};
ghost use Rattle.pipe_frame.specs.Frame.{column_of, columns_from};

use pipe_column::Series;
use pipe_frame::{DataFrame, Row};
use pipe_schema::{Field, FrameError, List, TryClone};
use std::alloc::{AllocError, Global};

/// Whether each row has so many cells.
fn are_of_width(rows: &[Row], width: usize) -> bool
    ensures { result ≡ true → All (λ row. length row ≡ width) rows.now }
{
    for row in rows {
        if row.len() != width {
            return false;
        }
    }
    true
}

/// The column of the i-th cells of rows, none where a cell doesn't fit it.
fn framed_column(
    alloc: Global,
    field: &Field,
    i: usize,
    rows: &[Row],
) -> Result<Option<Series>, AllocError>
    ensures { IfOk result (λ made. IfSome made (λ cells. cells ≡ column_of rows.now i field.now)) }
{
    let mut column = Series::new(alloc, field.name.try_clone()?, field.dtype);
    for row in rows {
        let Some(cell) = row.as_slice().get(i) else {
            return Ok(None);
        };
        if !cell.fits(field.dtype) {
            return Ok(None);
        }
        column.push(cell.try_clone()?)?;
    }
    Ok(Some(column))
}

/// The columns of rows, none where a cell doesn't fit its field.
fn framed_columns(
    alloc: Global,
    schema: &[Field],
    rows: &[Row],
) -> Result<Option<Vec<Series>>, AllocError>
    ensures { let columns = columns_from 0 schema.now rows.now in
        IfOk result (λ made. IfSome made (λ these. these.items ≡ columns)) }
{
    let mut columns = Vec::new(alloc);
    for i in 0..schema.len() {
        let Some(column) = framed_column(alloc, &schema[i], i, rows)? else {
            return Ok(None);
        };
        columns.push(column)?;
    }
    Ok(Some(columns))
}

/// The frame of rows, none where they don't fit the schema or are too many for a frame to be sorted.
pub(crate) fn framed(
    alloc: Global,
    schema: &[Field],
    rows: &[Row],
) -> Result<Option<DataFrame>, AllocError>
    ensures schema { IfOk result (λ made. IfSome made (λ frame. frame.schema ≡ schema.now)) }
    ensures rows { IfOk result (λ made. IfSome made (λ frame. frame.rows ≡ rows.now)) }
    ensures few { IfOk result (λ made. IfSome made (λ frame. length frame.rows < 2 ^ 32)) }
{
    if rows.len() > u32::MAX as usize || !are_of_width(rows, schema.len()) {
        return Ok(None);
    }
    let Some(columns) = framed_columns(alloc, schema, rows)? else {
        return Ok(None);
    };
    match DataFrame::new(alloc, columns) {
        Ok(frame) => Ok(Some(frame)),
        Err(FrameError::Memory) => Err(AllocError),
        Err(_) => Ok(None),
    }
}
