//! The series of an operand.

ghost use Rattle.std.specs.Prelude.{◌≡◌, replicate, IfOk, IsTrue};
ghost use Rattle.std.specs.Option.{option_copied};
ghost use Rattle.pipe_schema.specs.Cell.{fits_dtype, string_cell};
ghost use Rattle.pipe_schema.specs.declared.data_type.DataType.TheVariants as dtype;
ghost use Rattle.pipe_expr.specs.Operands.{operand_dtype, operand_cells, IsOperand};

use crate::byte_strings::bytes_in;
use crate::collect::collect;
use crate::nullable_values::ScalarValue;
use crate::operand::Operand;
use pipe_column::{BinaryColumn, Native, Series, StringColumn};
use pipe_schema::{AnyValue, DataType, Text, TryClone};
use std::alloc::{AllocError, Global};

/// A cell of a fixed-width type, at each of so many rows.
#[tactic(auto, using(crate::proofs::Operands::operand_rules))]
fn repeated<T: Native>(alloc: Global, rows: usize, from: &AnyValue) -> Result<Series, AllocError>
    requires { IsTrue (fits_dtype T.dtype_of from.now) }
    ensures dtype { IfOk result (λ made. made.dtype ≡ T.dtype_of) }
    ensures cells { IfOk result (λ made. made.cells ≡ replicate rows from.now) }
{
    let (valid, value) = T::value(from);
    let column = collect(alloc, rows, &ScalarValue { valid, value, rows })?;
    Ok(T::into_series(Text::new(alloc), column))
}

/// A text, or none, at each of so many rows.
#[tactic(auto, using(crate::proofs::Operands::operand_rules))]
fn repeated_text(alloc: Global, rows: usize, text: Option<&str>) -> Result<StringColumn, AllocError>
    ensures { IfOk result (λ column. column ≡ replicate rows (option_copied text.entry)) }
{
    let mut column = StringColumn::new(alloc);
    for _ in 0..rows {
        column.push(text)?;
    }
    Ok(column)
}

/// A byte string, or none, at each of so many rows.
#[tactic(auto, using(crate::proofs::Operands::operand_rules))]
fn repeated_bytes(
    alloc: Global,
    rows: usize,
    bytes: Option<&[u8]>,
) -> Result<BinaryColumn, AllocError>
    ensures { IfOk result (λ column. column ≡ replicate rows (option_copied bytes.entry)) }
{
    let mut column = BinaryColumn::new(alloc);
    for _ in 0..rows {
        column.push(bytes)?;
    }
    Ok(column)
}

/// The text in a cell, or none of null.
fn text_of(cell: &AnyValue) -> Option<&str>
    requires { IsTrue (fits_dtype dtype.String cell.now) }
    ensures { string_cell (option_copied result) ≡ cell.now }
{
    match cell {
        AnyValue::String(text) => Some(text.as_str()),
        _ => None,
    }
}

/// A series without a name that has a cell at each of so many rows.
#[tactic(auto, using(crate::proofs::Operands::operand_rules))]
fn constant_series(
    alloc: Global,
    rows: usize,
    dtype: DataType,
    cell: &AnyValue,
) -> Result<Series, AllocError>
    requires { IsTrue (fits_dtype dtype cell.now) }
    ensures dtype { IfOk result (λ made. made.dtype ≡ dtype) }
    ensures cells { IfOk result (λ made. made.cells ≡ replicate rows cell.now) }
{
    match dtype {
        DataType::Int32 => Ok(repeated::<i32>(alloc, rows, cell)?),
        DataType::Int64 => Ok(repeated::<i64>(alloc, rows, cell)?),
        DataType::UInt32 => Ok(repeated::<u32>(alloc, rows, cell)?),
        DataType::UInt64 => Ok(repeated::<u64>(alloc, rows, cell)?),
        DataType::Boolean => Ok(repeated::<bool>(alloc, rows, cell)?),
        DataType::Int128 => Ok(repeated::<i128>(alloc, rows, cell)?),
        DataType::String => {
            let column = repeated_text(alloc, rows, text_of(cell))?;
            Ok(Series::from_string(Text::new(alloc), column))
        }
        DataType::Binary => {
            let column = repeated_bytes(alloc, rows, bytes_in(cell))?;
            Ok(Series::from_binary(Text::new(alloc), column))
        }
    }
}

/// The series of an operand, under a name.
pub(crate) fn named(
    alloc: Global,
    name: Text,
    rows: usize,
    operand: Operand<'_>,
) -> Result<Series, AllocError>
    requires { IsOperand rows operand }
    ensures name { IfOk result (λ made. made.name ≡ name) }
    ensures dtype { IfOk result (λ made. made.dtype ≡ operand_dtype operand.entry) }
    ensures cells { IfOk result (λ made. made.cells ≡ operand_cells rows operand.entry) }
{
    match operand {
        Operand::Lent(series) => {
            let mut copy = series.try_clone()?;
            copy.rename(name);
            Ok(copy)
        }
        Operand::Owned(mut series) => {
            series.rename(name);
            Ok(series)
        }
        Operand::Constant(dtype, cell) => {
            let mut made = constant_series(alloc, rows, dtype, cell)?;
            made.rename(name);
            Ok(made)
        }
    }
}
