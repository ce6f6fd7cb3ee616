//! Decoding ordered encodings: rows as bytes back into columns.

ghost use Rattle.std.specs.Prelude.{◌≡◌, ◌<◌, ◌++◌, [], ◌∷◌, ℕ, length, map, IfOk, IfErr, OnOk};
ghost use Rattle.pipe_rows.specs.Equality.{IsRow, dtypes_of};
ghost use Rattle.pipe_rows.specs.Decoding.{FindsRow, FaultIs, AreDecoded, pushed_row, empty_column};

use crate::decode_value::{Decoded, take_cell};
use crate::error::RowsError;
use crate::rows_encoded::RowsEncoded;
use crate::sort_field::SortField;
use pipe_column::Series;
use pipe_schema::{AnyValue, DataType, Text};
use std::alloc::{AllocError, Global};

/// The cells of a row, if the bytes are an ordered encoding.
fn decode_row(
    alloc: Global,
    dtypes: &[DataType],
    fields: &[SortField],
    bytes: &[u8],
) -> Result<Option<Vec<AnyValue>>, AllocError>
    requires { length fields.now ≡ length dtypes.now }
    ensures { IfOk result (λ found. FindsRow fields.now dtypes.now bytes.now found) }
{
    let mut row = Vec::new(alloc);
    let mut at = 0;
    for (k, dtype) in dtypes.iter().enumerate() {
        let Some(Decoded { value, used }) = take_cell(alloc, *dtype, fields[k], &bytes[at..])?
        else {
            return Ok(None);
        };
        row.push(value)?;
        at += used;
    }
    if at == bytes.len() {
        Ok(Some(row))
    } else {
        Ok(None)
    }
}

/// Columns without a name or a cell.
fn empty_columns(alloc: Global, dtypes: &[DataType]) -> Result<Vec<Series>, AllocError>
    ensures { IfOk result (λ columns. columns.items ≡ map empty_column dtypes.now) }
{
    let mut columns = Vec::new(alloc);
    for dtype in dtypes {
        columns.push(Series::new(alloc, Text::new(alloc), *dtype))?;
    }
    Ok(columns)
}

/// Puts the cells of a row at the ends of the columns.
fn push_row(columns: &mut [Series], row: Vec<AnyValue>) -> Result<(), AllocError>
    requires { IsRow (dtypes_of columns.old) row.items }
    ensures { OnOk result (columns.new ≡ pushed_row columns.old row.items) }
{
    let mut row = row;
    while let Some(value) = row.pop() {
        columns[row.len()].push(value)?;
    }
    Ok(())
}

/// The columns whose rows these are under the ordered encoding, each by its type and field; they have no names.
/// `NotARow` tells the first row that is no ordered encoding of these types under these fields.
pub fn decode_rows(
    alloc: Global,
    rows: &RowsEncoded,
    dtypes: &[DataType],
    fields: &[SortField],
) -> Result<Vec<Series>, RowsError>
    requires some { 0 < length dtypes.now }
    requires fields { length fields.now ≡ length dtypes.now }
    ensures columns { IfOk result (λ made. AreDecoded fields.now dtypes.now rows.now made.items) }
    ensures fault { IfErr result (λ error. FaultIs fields.now dtypes.now rows.now error) }
{
    let mut columns = empty_columns(alloc, dtypes)?;
    for i in 0..rows.len() {
        let Some(row) = decode_row(alloc, dtypes, fields, rows.row(i))? else {
            return Err(RowsError::NotARow(i));
        };
        push_row(&mut columns, row)?;
    }
    Ok(columns)
}
