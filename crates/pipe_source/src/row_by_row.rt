//! The cells of some columns, row by row, as one column.

ghost use Rattle.std.specs.Prelude.{◌≡◌, ◌+◌, ◌<◌, ◌++◌, ◌^◌, IfOk, OnOk, map};
ghost use Rattle.std.specs.List.{AllByRecursion};
ghost use Rattle.pipe_schema.specs.Cell.{string_cell, binary_cell};
ghost use Rattle.pipe_column.specs.Series.{named_cells};
ghost use Rattle.pipe_source.specs.Lent.{cells_between, lent_row, HasCells};

use crate::parts::flattened_values;
use pipe_column::{BinaryColumn, Series, StringColumn};
use pipe_schema::{DataType, Text};
use std::alloc::{AllocError, Global};

/// Adds the texts of a row.
#[tactic(auto, using(crate::proofs::Flat::flat_rules))]
fn push_texts(made: &mut StringColumn, columns: &[&Series], i: usize) -> Result<(), AllocError>
    requires { AllByRecursion (HasCells DataType.String (i + 1)) columns.now }
    ensures { OnOk result
        (map string_cell made.new ≡ map string_cell made.old ++ lent_row columns.now i) }
{
    for column in columns {
        match column.as_string() {
            Some(texts) => made.push(texts.get(i))?,
            None => unreachable!(),
        }
    }
    Ok(())
}

/// The texts of so many rows from a row on, row by row.
#[tactic(auto, using(crate::proofs::Flat::flat_rules))]
fn flattened_texts(
    alloc: Global,
    name: Text,
    columns: &[&Series],
    from: usize,
    count: usize,
) -> Result<Series, AllocError>
    requires few { from + count < 2 ^ 33 }
    requires there { AllByRecursion (HasCells DataType.String (from + count)) columns.now }
    ensures { IfOk result
        (λ column. column
        ≡ named_cells name DataType.String (cells_between columns.now from count)) }
{
    let cells = count.saturating_mul(columns.len());
    let mut made = StringColumn::with_capacity(alloc, cells)?;
    for i in 0..count {
        push_texts(&mut made, columns, from + i)?;
    }
    Ok(Series::from_string(name, made))
}

/// Adds the byte strings of a row.
#[tactic(auto, using(crate::proofs::Flat::flat_rules))]
fn push_bytes(made: &mut BinaryColumn, columns: &[&Series], i: usize) -> Result<(), AllocError>
    requires { AllByRecursion (HasCells DataType.Binary (i + 1)) columns.now }
    ensures { OnOk result
        (map binary_cell made.new ≡ map binary_cell made.old ++ lent_row columns.now i) }
{
    for column in columns {
        match column.as_binary() {
            Some(bytes) => made.push(bytes.get(i))?,
            None => unreachable!(),
        }
    }
    Ok(())
}

/// The byte strings of so many rows from a row on, row by row.
#[tactic(auto, using(crate::proofs::Flat::flat_rules))]
fn flattened_bytes(
    alloc: Global,
    name: Text,
    columns: &[&Series],
    from: usize,
    count: usize,
) -> Result<Series, AllocError>
    requires few { from + count < 2 ^ 33 }
    requires there { AllByRecursion (HasCells DataType.Binary (from + count)) columns.now }
    ensures { IfOk result
        (λ column. column
        ≡ named_cells name DataType.Binary (cells_between columns.now from count)) }
{
    let cells = count.saturating_mul(columns.len());
    let mut made = BinaryColumn::with_capacity(alloc, cells)?;
    for i in 0..count {
        push_bytes(&mut made, columns, from + i)?;
    }
    Ok(Series::from_binary(name, made))
}

/// The cells of so many rows from a row on, of columns of one type, row by row, as one column of a name.
pub(crate) fn flattened(
    alloc: Global,
    name: Text,
    dtype: DataType,
    columns: &[&Series],
    from: usize,
    count: usize,
) -> Result<Series, AllocError>
    requires few { from + count < 2 ^ 33 }
    requires there { AllByRecursion (HasCells dtype (from + count)) columns.now }
    ensures { IfOk result
        (λ column. column ≡ named_cells name dtype (cells_between columns.now from count)) }
{
    match dtype {
        DataType::Int32 => flattened_values::<i32>(alloc, name, columns, from, count),
        DataType::Int64 => flattened_values::<i64>(alloc, name, columns, from, count),
        DataType::UInt32 => flattened_values::<u32>(alloc, name, columns, from, count),
        DataType::UInt64 => flattened_values::<u64>(alloc, name, columns, from, count),
        DataType::Boolean => flattened_values::<bool>(alloc, name, columns, from, count),
        DataType::String => flattened_texts(alloc, name, columns, from, count),
        DataType::Binary => flattened_bytes(alloc, name, columns, from, count),
        DataType::Int128 => flattened_values::<i128>(alloc, name, columns, from, count),
    }
}
