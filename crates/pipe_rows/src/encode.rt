//! Rows as bytes, filled column by column in one buffer: a pass that measures, and one that writes.

ghost use Rattle.std.specs.Prelude.{◌≡◌, ◌<◌, ◌||◌, length, IfOk, OnOk};
ghost use Rattle.pipe_column.specs.Columns.{AllOfHeight, height_of};
ghost use Rattle.pipe_rows.specs.Encodings.{cell_bytes_at, row_bytes_at, encoded_rows, null_at_place, null_in_row};
ghost use Rattle.pipe_rows.specs.Encodings.{ColumnWidens, RowsWiden, HaveWidths, NullsMarked, HaveMarks, AllAppended, AllHaveRoom, AreCells, AreTypedRows};

use crate::dense::encode_dense;
use crate::encoding::Encoding;
use crate::filling::RowFiller;
use crate::key_column::KeyColumn;
use crate::rows_encoded::RowsEncoded;
use pipe_column::{BinaryColumn, Column, Series, StringColumn};
use pipe_schema::DataType;
use std::alloc::{AllocError, Global};

/// Whether one of two holds.
fn either(a: bool, b: bool) -> bool
    ensures { result ≡ (a || b) }
{
    a || b
}

/// Adds the width of each cell of a column to its row's, and marks the rows of nulls.
fn measure_column<C: KeyColumn>(
    series: &Series,
    encoding: Encoding,
    widths: &mut [usize],
    marks: &mut [bool],
) -> Result<(), AllocError>
    requires typed { series.now.dtype ≡ C.dtype_of }
    requires widths { length series.now.cells ≡ length widths.old }
    requires marks { length series.now.cells ≡ length marks.old }
    ensures wide { length widths.new ≡ length widths.old }
    ensures long { length marks.new ≡ length marks.old }
    ensures widths { OnOk result (ColumnWidens encoding series.now widths.old widths.new) }
    ensures marks { OnOk result (NullsMarked (null_at_place series.now.cells) marks.old marks.new) }
{
    let column = C::of(series);
    for i in 0..widths.len() {
        let Some(width) = widths[i].checked_add(column.cell_width(i, encoding)?) else {
            return Err(AllocError);
        };
        widths[i] = width;
        marks[i] = either(marks[i], column.is_null(i));
    }
    Ok(())
}

/// Writes each cell of a column to its row.
fn fill_column<C: KeyColumn>(series: &Series, encoding: Encoding, filler: &mut RowFiller)
    requires typed { series.now.dtype ≡ C.dtype_of }
    requires even { length series.now.cells ≡ length filler.old }
    requires room { AllHaveRoom (cell_bytes_at encoding series.now.cells) filler.old }
    ensures count { length filler.new ≡ length filler.old }
    ensures rows { AllAppended (cell_bytes_at encoding series.now.cells) filler.old filler.new }
    ensures cells { AreCells series.now }
{
    let column = C::of(series);
    for i in 0..series.len() {
        column.put_cell(i, encoding, filler);
    }
}

/// Measures a column by its type.
fn measure(
    series: &Series,
    encoding: Encoding,
    widths: &mut [usize],
    marks: &mut [bool],
) -> Result<(), AllocError>
    requires widths { length series.now.cells ≡ length widths.old }
    requires marks { length series.now.cells ≡ length marks.old }
    ensures wide { length widths.new ≡ length widths.old }
    ensures long { length marks.new ≡ length marks.old }
    ensures widths { OnOk result (ColumnWidens encoding series.now widths.old widths.new) }
    ensures marks { OnOk result (NullsMarked (null_at_place series.now.cells) marks.old marks.new) }
{
    match series.dtype() {
        DataType::Int32 => measure_column::<Column<i32>>(series, encoding, widths, marks),
        DataType::Int64 => measure_column::<Column<i64>>(series, encoding, widths, marks),
        DataType::UInt32 => measure_column::<Column<u32>>(series, encoding, widths, marks),
        DataType::UInt64 => measure_column::<Column<u64>>(series, encoding, widths, marks),
        DataType::Boolean => measure_column::<Column<bool>>(series, encoding, widths, marks),
        DataType::String => measure_column::<StringColumn>(series, encoding, widths, marks),
        DataType::Binary => measure_column::<BinaryColumn>(series, encoding, widths, marks),
        DataType::Int128 => measure_column::<Column<i128>>(series, encoding, widths, marks),
    }
}

/// Writes a column by its type.
fn fill(series: &Series, encoding: Encoding, filler: &mut RowFiller)
    requires even { length series.now.cells ≡ length filler.old }
    requires room { AllHaveRoom (cell_bytes_at encoding series.now.cells) filler.old }
    ensures count { length filler.new ≡ length filler.old }
    ensures rows { AllAppended (cell_bytes_at encoding series.now.cells) filler.old filler.new }
    ensures cells { AreCells series.now }
{
    match series.dtype() {
        DataType::Int32 => fill_column::<Column<i32>>(series, encoding, filler),
        DataType::Int64 => fill_column::<Column<i64>>(series, encoding, filler),
        DataType::UInt32 => fill_column::<Column<u32>>(series, encoding, filler),
        DataType::UInt64 => fill_column::<Column<u64>>(series, encoding, filler),
        DataType::Boolean => fill_column::<Column<bool>>(series, encoding, filler),
        DataType::String => fill_column::<StringColumn>(series, encoding, filler),
        DataType::Binary => fill_column::<BinaryColumn>(series, encoding, filler),
        DataType::Int128 => fill_column::<Column<i128>>(series, encoding, filler),
    }
}

/// Adds the width of each row of some columns, and marks the rows that have a null.
fn measure_all(
    columns: &[Series],
    encodings: &[Encoding],
    widths: &mut [usize],
    marks: &mut [bool],
) -> Result<(), AllocError>
    requires widths { AllOfHeight (length widths.old) columns.now }
    requires marks { length marks.old ≡ length widths.old }
    requires encodings { length encodings.now ≡ length columns.now }
    ensures wide { length widths.new ≡ length widths.old }
    ensures long { length marks.new ≡ length marks.old }
    ensures widths { OnOk result (RowsWiden encodings.now columns.now widths.old widths.new) }
    ensures marks { OnOk result (NullsMarked (null_in_row columns.now) marks.old marks.new) }
{
    for (k, column) in columns.iter().enumerate() {
        measure(column, encodings[k], widths, marks)?;
    }
    Ok(())
}

/// Writes each row of some columns, column by column.
fn fill_all(columns: &[Series], encodings: &[Encoding], filler: &mut RowFiller)
    requires even { AllOfHeight (length filler.old) columns.now }
    requires encodings { length encodings.now ≡ length columns.now }
    requires room { AllHaveRoom (row_bytes_at encodings.now columns.now) filler.old }
    ensures count { length filler.new ≡ length filler.old }
    ensures rows { AllAppended (row_bytes_at encodings.now columns.now) filler.old filler.new }
    ensures cells { AreTypedRows columns.now (length filler.old) }
{
    for (k, column) in columns.iter().enumerate() {
        fill(column, encodings[k], filler);
    }
}

/// The width of each row of some columns, and for each a mark whether it has a null.
fn measured(
    alloc: Global,
    columns: &[Series],
    encodings: &[Encoding],
    height: usize,
) -> Result<(Vec<usize>, Vec<bool>), AllocError>
    requires even { AllOfHeight height columns.now }
    requires encodings { length encodings.now ≡ length columns.now }
    ensures wide { IfOk result (λ it. length it.0.items ≡ height) }
    ensures long { IfOk result (λ it. length it.1.items ≡ height) }
    ensures widths { IfOk result (λ it. HaveWidths encodings.now columns.now height it.0.items) }
    ensures marks { IfOk result (λ it. HaveMarks (null_in_row columns.now) height it.1.items) }
{
    let mut widths = vec![in alloc; 0; height]?;
    let mut marks = vec![in alloc; false; height]?;
    measure_all(columns, encodings, &mut widths, &mut marks)?;
    Ok((widths, marks))
}

/// The rows of some columns of one height, each column under its encoding: measured first, and then written.
fn encode_each(
    alloc: Global,
    columns: &[Series],
    encodings: &[Encoding],
) -> Result<RowsEncoded, AllocError>
    requires some { 0 < length columns.now }
    requires even { AllOfHeight (height_of columns.now) columns.now }
    requires encodings { length encodings.now ≡ length columns.now }
    ensures rows { IfOk result (λ rows. rows ≡ encoded_rows encodings.now columns.now) }
    ensures cells { OnOk result (AreTypedRows columns.now (height_of columns.now)) }
{
    let height = columns[0].len();
    let (widths, marks) = measured(alloc, columns, encodings, height)?;
    let mut filler = RowFiller::new(alloc, widths.as_slice())?;
    fill_all(columns, encodings, &mut filler);
    Ok(filler.finish(marks))
}

/// The rows of some columns of one height, each column under its encoding.
pub(crate) fn encode(
    alloc: Global,
    columns: &[Series],
    encodings: &[Encoding],
) -> Result<RowsEncoded, AllocError>
    requires some { 0 < length columns.now }
    requires even { AllOfHeight (height_of columns.now) columns.now }
    requires encodings { length encodings.now ≡ length columns.now }
    ensures rows { IfOk result (λ rows. rows ≡ encoded_rows encodings.now columns.now) }
    ensures cells { OnOk result (AreTypedRows columns.now (height_of columns.now)) }
{
    match encode_dense(alloc, columns, encodings)? {
        Some(rows) => Ok(rows),
        None => encode_each(alloc, columns, encodings),
    }
}
