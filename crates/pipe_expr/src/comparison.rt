//! Comparisons of columns.

ghost use Rattle.std.specs.Prelude.{◌≡◌, length, IfOk};
ghost use Rattle.std.specs.Ordering.{is_eq, is_ne, is_lt, is_le, is_gt, is_ge};
ghost use Rattle.pipe_schema.specs.declared.data_type.DataType.TheVariants as dtype;
ghost use Rattle.pipe_expr.specs.Values.{compared};
ghost use Rattle.pipe_expr.specs.Operands.{operand_dtype, IsRowByRow, IsOperand, byte_strings, compared_strings};

use crate::byte_strings::{ByteStrings, ComparedStrings, bytes, texts};
use crate::collect::collect;
use crate::kernel::{Compared, Test};
use crate::native_operand::zip;
use crate::operand::Operand;
use pipe_column::{Column, Series};
use pipe_schema::{DataType, Text};
use std::alloc::{AllocError, Global};
use std::cmp::Ordering;

/// Whether the values are the same.
#[derive(Clone, Copy)]
pub(crate) struct IsEqual;

impl Test for IsEqual {
    ghost test = { is_eq };

    fn passes(&self, order: Ordering) -> bool {
        order.is_eq()
    }
}

/// Whether the values differ.
#[derive(Clone, Copy)]
pub(crate) struct IsOther;

impl Test for IsOther {
    ghost test = { is_ne };

    fn passes(&self, order: Ordering) -> bool {
        order.is_ne()
    }
}

/// Whether the left value is the lesser.
#[derive(Clone, Copy)]
pub(crate) struct IsLess;

impl Test for IsLess {
    ghost test = { is_lt };

    fn passes(&self, order: Ordering) -> bool {
        order.is_lt()
    }
}

/// Whether the left value isn't the greater.
#[derive(Clone, Copy)]
pub(crate) struct IsLessOrEqual;

impl Test for IsLessOrEqual {
    ghost test = { is_le };

    fn passes(&self, order: Ordering) -> bool {
        order.is_le()
    }
}

/// Whether the left value is the greater.
#[derive(Clone, Copy)]
pub(crate) struct IsGreater;

impl Test for IsGreater {
    ghost test = { is_gt };

    fn passes(&self, order: Ordering) -> bool {
        order.is_gt()
    }
}

/// Whether the left value isn't the lesser.
#[derive(Clone, Copy)]
pub(crate) struct IsGreaterOrEqual;

impl Test for IsGreaterOrEqual {
    ghost test = { is_ge };

    fn passes(&self, order: Ordering) -> bool {
        order.is_ge()
    }
}

/// A test of how byte strings compare, row by row.
#[tactic(auto, using(crate::proofs::Operands::operand_rules))]
fn compare_strings<C: Test>(
    alloc: Global,
    rows: usize,
    left: ByteStrings<'_>,
    right: ByteStrings<'_>,
    test: C,
) -> Result<Column<bool>, AllocError>
    requires left { length (byte_strings left) ≡ rows }
    requires right { length (byte_strings right) ≡ rows }
    ensures { IfOk result (λ c. c ≡ compared_strings C.test left.entry right.entry) }
{
    Ok(collect(alloc, rows, &ComparedStrings { left, right, test })?)
}

/// A test of how two operands of texts compare, row by row.
#[tactic(auto, using(crate::proofs::Operands::operand_rules))]
fn compare_texts<C: Test>(
    alloc: Global,
    rows: usize,
    left: Operand<'_>,
    right: Operand<'_>,
    test: C,
) -> Result<Series, AllocError>
    requires left { operand_dtype left ≡ dtype.String }
    requires right { operand_dtype right ≡ dtype.String }
    requires rows_left { IsOperand rows left }
    requires rows_right { IsOperand rows right }
    ensures dtype { IfOk result (λ made. made.dtype ≡ dtype.Boolean) }
    ensures cells { IfOk result (IsRowByRow (compared C.test) rows left.entry right.entry) }
{
    let column = compare_strings(alloc, rows, texts(rows, &left), texts(rows, &right), test)?;
    Ok(Series::from_column(Text::new(alloc), column))
}

/// A test of how two operands of byte strings compare, row by row.
#[tactic(auto, using(crate::proofs::Operands::operand_rules))]
fn compare_bytes<C: Test>(
    alloc: Global,
    rows: usize,
    left: Operand<'_>,
    right: Operand<'_>,
    test: C,
) -> Result<Series, AllocError>
    requires left { operand_dtype left ≡ dtype.Binary }
    requires right { operand_dtype right ≡ dtype.Binary }
    requires rows_left { IsOperand rows left }
    requires rows_right { IsOperand rows right }
    ensures dtype { IfOk result (λ made. made.dtype ≡ dtype.Boolean) }
    ensures cells { IfOk result (IsRowByRow (compared C.test) rows left.entry right.entry) }
{
    let column = compare_strings(alloc, rows, bytes(rows, &left), bytes(rows, &right), test)?;
    Ok(Series::from_column(Text::new(alloc), column))
}

/// A test of how two operands of one type compare, row by row.
pub(crate) fn compare<C: Test>(
    alloc: Global,
    rows: usize,
    left: Operand<'_>,
    right: Operand<'_>,
    test: C,
) -> Result<Series, AllocError>
    requires same { operand_dtype right ≡ operand_dtype left }
    requires rows_left { IsOperand rows left }
    requires rows_right { IsOperand rows right }
    ensures dtype { IfOk result (λ made. made.dtype ≡ dtype.Boolean) }
    ensures cells { IfOk result (IsRowByRow (compared C.test) rows left.entry right.entry) }
{
    let by = Compared { test };
    match left.dtype() {
        DataType::Int32 => Ok(zip::<i32, Compared<C>>(alloc, rows, left, right, by)?),
        DataType::Int64 => Ok(zip::<i64, Compared<C>>(alloc, rows, left, right, by)?),
        DataType::UInt32 => Ok(zip::<u32, Compared<C>>(alloc, rows, left, right, by)?),
        DataType::UInt64 => Ok(zip::<u64, Compared<C>>(alloc, rows, left, right, by)?),
        DataType::Boolean => Ok(zip::<bool, Compared<C>>(alloc, rows, left, right, by)?),
        DataType::Int128 => Ok(zip::<i128, Compared<C>>(alloc, rows, left, right, by)?),
        DataType::String => Ok(compare_texts(alloc, rows, left, right, test)?),
        DataType::Binary => Ok(compare_bytes(alloc, rows, left, right, test)?),
    }
}
