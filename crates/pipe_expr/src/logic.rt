//! Three-valued `and`, `or` and `not` of columns.

ghost use Rattle.std.specs.Prelude.{◌≡◌, IfOk};
ghost use Rattle.pipe_schema.specs.declared.data_type.DataType.TheVariants as dtype;
ghost use Rattle.pipe_expr.specs.Values.{both_of, either_of, opposite_of};
ghost use Rattle.pipe_expr.specs.Operands.{operand_dtype, each_row, IsRowByRow, IsOperand};

use crate::comparison::IsOther;
use crate::kernel::{Both, Compared, Either};
use crate::native_operand::zip_into;
use crate::operand::Operand;
use pipe_column::Series;
use pipe_schema::{AnyValue, DataType};
use std::alloc::{AllocError, Global};

/// The `and` of two operands of truth values, row by row.
pub(crate) fn both(
    alloc: Global,
    rows: usize,
    left: Operand<'_>,
    right: Operand<'_>,
) -> Result<Series, AllocError>
    requires left { operand_dtype left ≡ dtype.Boolean }
    requires right { operand_dtype right ≡ dtype.Boolean }
    requires rows_left { IsOperand rows left }
    requires rows_right { IsOperand rows right }
    ensures dtype { IfOk result (λ made. made.dtype ≡ dtype.Boolean) }
    ensures cells { IfOk result (IsRowByRow both_of rows left.entry right.entry) }
{
    Ok(zip_into::<bool, Both>(alloc, rows, left, right, Both)?)
}

/// The `or` of two operands of truth values, row by row.
pub(crate) fn either(
    alloc: Global,
    rows: usize,
    left: Operand<'_>,
    right: Operand<'_>,
) -> Result<Series, AllocError>
    requires left { operand_dtype left ≡ dtype.Boolean }
    requires right { operand_dtype right ≡ dtype.Boolean }
    requires rows_left { IsOperand rows left }
    requires rows_right { IsOperand rows right }
    ensures dtype { IfOk result (λ made. made.dtype ≡ dtype.Boolean) }
    ensures cells { IfOk result (IsRowByRow either_of rows left.entry right.entry) }
{
    Ok(zip_into::<bool, Either>(alloc, rows, left, right, Either)?)
}

/// The other truth values of an operand of truth values, row by row: whether each isn't true.
pub(crate) fn negated(alloc: Global, rows: usize, inner: Operand<'_>) -> Result<Series, AllocError>
    requires typed { operand_dtype inner ≡ dtype.Boolean }
    requires sized { IsOperand rows inner }
    ensures dtype { IfOk result (λ made. made.dtype ≡ dtype.Boolean) }
    ensures cells { IfOk result (λ made. made.cells ≡ each_row opposite_of rows inner.entry) }
{
    let yes = AnyValue::Boolean(true);
    let yes = Operand::Constant(DataType::Boolean, &yes);
    let is_other = Compared { test: IsOther };
    Ok(zip_into::<bool, Compared<IsOther>>(alloc, rows, inner, yes, is_other)?)
}
