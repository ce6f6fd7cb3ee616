//! Sums, differences and products of columns.

ghost use Rattle.std.specs.Prelude.{◌≡◌, IfOk, IsTrue};
ghost use Rattle.pipe_expr.specs.Types.{is_integer};
ghost use Rattle.pipe_expr.specs.Arithmetic.{arithmetic_of};
ghost use Rattle.pipe_expr.specs.Operands.{operand_dtype, IsRowByRow, IsOperand};

use crate::integer::Integer;
use crate::kernel::{Difference, Product, Sum};
use crate::native_operand::zip_into;
use crate::operand::Operand;
use pipe_column::Series;
use pipe_schema::DataType;
use std::alloc::{AllocError, Global};

/// An operation on two integers of one type.
#[derive(Clone, Copy)]
pub(crate) enum Arithmetic {
    Sum,
    Difference,
    Product,
}

/// What an operation gives of two operands of an integer type, row by row.
fn calculate_as<T: Integer>(
    alloc: Global,
    rows: usize,
    operation: Arithmetic,
    left: Operand<'_>,
    right: Operand<'_>,
) -> Result<Series, AllocError>
    requires left { operand_dtype left ≡ T.dtype_of }
    requires right { operand_dtype right ≡ T.dtype_of }
    requires rows_left { IsOperand rows left }
    requires rows_right { IsOperand rows right }
    ensures dtype { IfOk result (λ made. made.dtype ≡ T.dtype_of) }
    ensures cells { IfOk result (IsRowByRow (arithmetic_of operation) rows left.entry right.entry) }
{
    match operation {
        Arithmetic::Sum => Ok(zip_into::<T, Sum>(alloc, rows, left, right, Sum)?),
        Arithmetic::Difference => Ok(zip_into::<T, Difference>(
            alloc, rows, left, right, Difference,
        )?),
        Arithmetic::Product => Ok(zip_into::<T, Product>(alloc, rows, left, right, Product)?),
    }
}

/// What an operation gives of two operands of one integer type, row by row.
pub(crate) fn calculate(
    alloc: Global,
    rows: usize,
    operation: Arithmetic,
    left: Operand<'_>,
    right: Operand<'_>,
) -> Result<Series, AllocError>
    requires integer { IsTrue (is_integer (operand_dtype left)) }
    requires same { operand_dtype right ≡ operand_dtype left }
    requires rows_left { IsOperand rows left }
    requires rows_right { IsOperand rows right }
    ensures dtype { IfOk result (λ made. made.dtype ≡ operand_dtype left.entry) }
    ensures cells { IfOk result (IsRowByRow (arithmetic_of operation) rows left.entry right.entry) }
{
    match left.dtype() {
        DataType::Int32 => Ok(calculate_as::<i32>(alloc, rows, operation, left, right)?),
        DataType::Int64 => Ok(calculate_as::<i64>(alloc, rows, operation, left, right)?),
        DataType::UInt32 => Ok(calculate_as::<u32>(alloc, rows, operation, left, right)?),
        DataType::UInt64 => Ok(calculate_as::<u64>(alloc, rows, operation, left, right)?),
        DataType::Int128 => Ok(calculate_as::<i128>(alloc, rows, operation, left, right)?),
        DataType::Boolean | DataType::String | DataType::Binary => unreachable!(),
    }
}
