//! What a frame does to its columns, one after another.

ghost use Rattle.std.specs.Prelude.{◌≡◌, ℕ, ◌<◌, ◌≤◌, ◌+◌, [], length, ◌⊎◌, ◌^◌, All, map, option_map, sum_by, IfOk, IfErr, OnOk, OnErr, Some, None};
ghost use Rattle.pipe_schema.specs.Schema.{MemoryOr, first_unknown};
ghost use Rattle.pipe_column.specs.Sizes.{column_size};
ghost use Rattle.pipe_column.specs.Columns.{taken_columns, part_column, front_column, stacked_columns, true_places, row_at, field_of, height_of, other_height, AllOfHeight};
ghost use Rattle.pipe_frame.specs.Frame.{columns_named, unknown_fault};

use crate::data_frame::Row;
use pipe_column::{Column, Place, Series};
use pipe_schema::{Field, FrameError, List, Schema, Text, TryClone};
use std::alloc::{AllocError, Global};

/// The row at a place of some columns.
pub(crate) fn row_of(
    alloc: Global,
    columns: &[Series],
    height: usize,
    i: usize,
) -> Result<Row, AllocError>
    requires inside { i < height }
    requires even { AllOfHeight height columns.now }
    ensures { IfOk result (λ row. row ≡ row_at columns.now i) }
{
    let mut row = List::new(alloc);
    for column in columns {
        row.push(column.get(i)?)?;
    }
    Ok(row)
}

/// The fields of some columns.
pub(crate) fn fields_of(alloc: Global, columns: &[Series]) -> Result<List<Field>, AllocError>
    ensures { IfOk result (λ fields. fields ≡ map field_of columns.now) }
{
    let mut fields = List::new(alloc);
    for column in columns {
        fields.push(Field {
            name: column.name().try_clone()?,
            dtype: column.dtype(),
        })?;
    }
    Ok(fields)
}

/// The first height that isn't this one.
pub(crate) fn differing_height(columns: &[Series], height: usize) -> Option<usize>
    ensures { result ≡ other_height height columns.now }
{
    for column in columns {
        if column.len() != height {
            return Some(column.len());
        }
    }
    None
}

/// The height of the first column.
pub(crate) fn first_height(columns: &[Series]) -> usize
    ensures { result ≡ height_of columns.now }
{
    match columns {
        [] => 0,
        [column, ..] => column.len(),
    }
}

/// The cells at these places of some columns, null where there is none.
pub(crate) fn take_columns<P: Place>(
    alloc: Global,
    columns: &[Series],
    places: &[P],
) -> Result<Vec<Series>, AllocError>
    ensures { IfOk result (λ all. all.items ≡ taken_columns (map P.place places.now) columns.now) }
{
    let mut taken = Vec::with_capacity(alloc, columns.len())?;
    for column in columns {
        taken.push(column.take_at(alloc, places)?)?;
    }
    Ok(taken)
}

/// So many cells from a place on of some columns.
pub(crate) fn slice_columns(
    alloc: Global,
    columns: &[Series],
    height: usize,
    from: usize,
    count: usize,
) -> Result<Vec<Series>, AllocError>
    requires inside { from + count ≤ height }
    requires even { AllOfHeight height columns.now }
    ensures { IfOk result (λ parts. parts.items ≡ map (part_column from count) columns.now) }
{
    let mut parts = Vec::with_capacity(alloc, columns.len())?;
    for column in columns {
        parts.push(column.slice(from, count)?)?;
    }
    Ok(parts)
}

/// Keeps so many cells of some columns, from the front.
fn truncate_columns(columns: &mut [Series], count: usize)
    ensures { columns.new ≡ map (front_column count) columns.old }
{
    for column in columns.iter_mut() {
        column.truncate(count);
    }
}

/// Lets copies and parts of some columns share their memory from now on.
pub(crate) fn share_columns(columns: &mut [Series]) -> Result<(), AllocError>
    ensures { columns.new ≡ columns.old }
{
    for i in 0..columns.len() {
        columns[i].share()?;
    }
    Ok(())
}

/// Puts the cells of other columns of the same types behind those of some columns.
pub(crate) fn append_columns(
    columns: &mut [Series],
    others: &[Series],
    height: usize,
) -> Result<(), AllocError>
    requires even { AllOfHeight height columns.old }
    requires same { map field_of columns.old ≡ map field_of others.now }
    ensures ok { OnOk result (columns.new ≡ stacked_columns columns.old others.now) }
    ensures err { OnErr result (columns.new ≡ columns.old) }
{
    for i in 0..columns.len() {
        if let Err(error) = columns[i].append(&others[i]) {
            truncate_columns(columns, height);
            return Err(error);
        }
    }
    Ok(())
}

/// The places where truth values are true: each place is written, and stays where its value is true, so that no branch
/// hangs on the values.
fn places_of_values(alloc: Global, values: &[bool]) -> Result<Vec<usize>, AllocError>
    ensures { IfOk result (λ places. places.items ≡ true_places 0 (map Some values.now)) }
{
    let mut places = vec![in alloc; 0; values.len()]?;
    let mut count: usize = 0;
    for i in 0..values.len() {
        places[count] = i;
        count += usize::from(values[i]);
    }
    places.truncate(count);
    Ok(places)
}

/// The places where a mask is true.
pub(crate) fn places_of_true(alloc: Global, mask: &Column<bool>) -> Result<Vec<usize>, AllocError>
    ensures { IfOk result (λ places. places.items ≡ true_places 0 mask.now) }
{
    if let Some(values) = mask.values_without_nulls() {
        return Ok(places_of_values(alloc, values)?);
    }
    let mut places = Vec::new(alloc);
    for i in 0..mask.len() {
        if let Some(true) = mask.at(i) {
            places.push(i)?;
        }
    }
    Ok(places)
}

/// Columns with no cell, for these fields.
pub(crate) fn empty_columns(alloc: Global, fields: &[Field]) -> Result<Vec<Series>, AllocError>
    ensures ok { IfOk result (λ columns. map field_of columns.items ≡ fields.now) }
    ensures empty { IfOk result (λ columns. AllOfHeight 0 columns.items) }
{
    let mut columns = Vec::with_capacity(alloc, fields.len())?;
    for field in fields {
        columns.push(Series::new(alloc, field.name.try_clone()?, field.dtype))?;
    }
    Ok(columns)
}

/// The size of some columns, in bytes.
pub(crate) fn size_of_columns(columns: &[Series]) -> u64
    requires { sum_by column_size columns.now < 2 ^ 64 }
    ensures { result ≡ sum_by column_size columns.now }
{
    let mut size = 0;
    for column in columns {
        size += column.size();
    }
    size
}

/// The columns of these names, in the order of the names.
pub(crate) fn select_columns(
    alloc: Global,
    columns: &[Series],
    schema: &Schema,
    names: &[Text],
) -> Result<Vec<Series>, FrameError>
    requires { schema.now ≡ map field_of columns.now }
    ensures ok { IfOk result (λ made. made.items ≡ columns_named schema.now names.now columns.now) }
    ensures known { OnOk result (first_unknown schema.now names.now ≡ None) }
    ensures err { IfErr result (MemoryOr (unknown_fault schema.now names.now)) }
{
    let mut made = List::new(alloc);
    for name in names {
        let Some(i) = schema.index_of(name.as_bytes()) else {
            return Err(FrameError::UnknownColumn(name.try_clone()?));
        };
        made.push(columns[i].try_clone()?)?;
    }
    Ok(made.into_vec())
}
