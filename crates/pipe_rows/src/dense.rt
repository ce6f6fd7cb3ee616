//! Keys whose columns are all of fixed width and without nulls: each row has the same width, so that cells are written
//! where they belong, column by column, with no pass that measures.

ghost use Rattle.std.specs.Prelude.{◌≡◌, ◌+◌, ◌*◌, ◌<◌, ◌≤◌, true, length, map, IfOk};
ghost use Rattle.pipe_column.specs.Columns.{AllOfHeight, height_of};
ghost use Rattle.pipe_schema.specs.Sizes.{width_of};
ghost use Rattle.pipe_rows.specs.Dense.{cell_width, row_width, Written, Extended, Filled, AreRowsOf};
ghost use Rattle.pipe_rows.specs.Encoded.{unmarked};
ghost use Rattle.pipe_rows.specs.EvenRows.{even_rows};

use crate::encoding::Encoding;
use crate::even_rows::EvenRows;
use crate::fixed_width::write_cell;
use crate::row_bytes::RowBytes;
use crate::rows_encoded::RowsEncoded;
use pipe_column::{Native, Series};
use pipe_schema::DataType;
use std::alloc::{AllocError, Global};

/// How many bytes a cell of a column has that isn't null, the byte before its value included.
fn cell_width(column: &Series) -> usize
    ensures { result ≡ cell_width column.now }
{
    1 + column.dtype().width()
}

/// How many bytes the cells of a row have.
fn row_width(columns: &[Series]) -> Result<usize, AllocError>
    ensures { IfOk result (λ width. width ≡ row_width columns.now) }
{
    let mut width: usize = 0;
    for column in columns {
        let Some(wider) = width.checked_add(cell_width(column)) else {
            return Err(AllocError);
        };
        width = wider;
    }
    Ok(width)
}

/// Whether a column of a type has no null.
fn is_full<T: Native>(series: &Series) -> bool {
    match T::column(series) {
        Some(column) => column.values_without_nulls().is_some(),
        None => false,
    }
}

/// Whether a column is of fixed width and has no null.
fn is_dense(series: &Series) -> bool {
    match series.dtype() {
        DataType::Int32 => is_full::<i32>(series),
        DataType::Int64 => is_full::<i64>(series),
        DataType::UInt32 => is_full::<u32>(series),
        DataType::UInt64 => is_full::<u64>(series),
        DataType::Boolean => is_full::<bool>(series),
        DataType::String => false,
        DataType::Binary => false,
        DataType::Int128 => is_full::<i128>(series),
    }
}

/// Whether all columns are of fixed width and have no null.
fn are_dense(columns: &[Series]) -> bool {
    for column in columns {
        if !is_dense(column) {
            return false;
        }
    }
    true
}

/// Writes the cells of some values, each at an offset of its row.
#[tactic(auto, using(crate::proofs::EvenLemmas::even_rules))]
fn write_cells<T: Native>(
    values: &[T],
    encoding: Encoding,
    width: usize,
    offset: usize,
    bytes: &mut [u8],
)
    requires fits { offset + (1 + width_of T.dtype_of) ≤ width }
    requires room { length bytes.old ≡ length values.now * width }
    ensures { Written T.cell encoding (1 + width_of T.dtype_of) width offset values.now
        (length values.now) bytes.old bytes.new }
{
    for i in 0..values.len() {
        let start = i * width + offset;
        let end = start + (1 + T::width());
        write_cell(values[i], encoding, &mut bytes[start..end]);
    }
}

/// Writes the cells of a column of a type, each at an offset of its row, where none is null; tells whether it did.
fn write_column<T: Native>(
    series: &Series,
    encoding: Encoding,
    width: usize,
    offset: usize,
    bytes: &mut [u8],
) -> bool
    requires typed { series.now.dtype ≡ T.dtype_of }
    requires fits { offset + cell_width series.now ≤ width }
    requires room { length bytes.old ≡ length series.now.cells * width }
    ensures long { length bytes.new ≡ length bytes.old }
    ensures cells { result ≡ true →
        Extended encoding width offset series.now bytes.old bytes.new }
{
    let Some(column) = T::column(series) else {
        return false;
    };
    let Some(values) = column.values_without_nulls() else {
        return false;
    };
    write_cells(values, encoding, width, offset, bytes);
    true
}

/// Writes the cells of a column, each at an offset of its row, where they are of fixed width and none is null; tells
/// whether it did.
fn write_dense(
    series: &Series,
    encoding: Encoding,
    width: usize,
    offset: usize,
    bytes: &mut [u8],
) -> bool
    requires fits { offset + cell_width series.now ≤ width }
    requires room { length bytes.old ≡ length series.now.cells * width }
    ensures long { length bytes.new ≡ length bytes.old }
    ensures cells { result ≡ true →
        Extended encoding width offset series.now bytes.old bytes.new }
{
    match series.dtype() {
        DataType::Int32 => write_column::<i32>(series, encoding, width, offset, bytes),
        DataType::Int64 => write_column::<i64>(series, encoding, width, offset, bytes),
        DataType::UInt32 => write_column::<u32>(series, encoding, width, offset, bytes),
        DataType::UInt64 => write_column::<u64>(series, encoding, width, offset, bytes),
        DataType::Boolean => write_column::<bool>(series, encoding, width, offset, bytes),
        DataType::String => false,
        DataType::Binary => false,
        DataType::Int128 => write_column::<i128>(series, encoding, width, offset, bytes),
    }
}

/// Writes the cells of some columns row by row, where all are of fixed width and none is null; tells whether it did.
fn write_columns(
    columns: &[Series],
    encodings: &[Encoding],
    height: usize,
    width: usize,
    bytes: &mut [u8],
) -> bool
    requires even { AllOfHeight height columns.now }
    requires encodings { length encodings.now ≡ length columns.now }
    requires width { width ≡ row_width columns.now }
    requires room { length bytes.old ≡ height * width }
    ensures long { length bytes.new ≡ length bytes.old }
    ensures filled { result ≡ true → Filled encodings.now columns.now height width bytes.new }
{
    let mut offset: usize = 0;
    for (k, column) in columns.iter().enumerate() {
        let written = write_dense(column, encodings[k], width, offset, bytes);
        if !written {
            return false;
        }
        offset += cell_width(column);
    }
    true
}

/// So many rows of a width, which fill a buffer, none of them with a null.
fn full_rows(
    alloc: Global,
    bytes: Vec<u8>,
    width: usize,
    height: usize,
) -> Result<RowsEncoded, AllocError>
    requires { length bytes.items ≡ height * width }
    ensures { IfOk result (λ rows. rows ≡ map unmarked (even_rows width height bytes.items)) }
{
    let marks = vec![in alloc; false; height]?;
    let even = EvenRows::of_parts(bytes, width, height);
    let rows = RowBytes::of_even(even);
    Ok(RowsEncoded::of_parts(rows, marks))
}

/// The rows of some columns of one height, where all are of fixed width and have no null. No memory is taken for
/// others.
pub(crate) fn encode_dense(
    alloc: Global,
    columns: &[Series],
    encodings: &[Encoding],
) -> Result<Option<RowsEncoded>, AllocError>
    requires some { 0 < length columns.now }
    requires even { AllOfHeight (height_of columns.now) columns.now }
    requires encodings { length encodings.now ≡ length columns.now }
    ensures { IfOk result (AreRowsOf encodings.now columns.now) }
{
    if !are_dense(columns) {
        return Ok(None);
    }
    let height = columns[0].len();
    let width = row_width(columns)?;
    let Some(size) = height.checked_mul(width) else {
        return Err(AllocError);
    };
    let mut bytes = vec![in alloc; 0; size]?;
    let written = write_columns(columns, encodings, height, width, &mut bytes);
    if !written {
        return Ok(None);
    }
    let rows = full_rows(alloc, bytes, width, height)?;
    Ok(Some(rows))
}
