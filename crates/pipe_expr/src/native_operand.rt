//! Operands of one fixed-width type, and the kernels on two of them.

ghost use Rattle.std.specs.Prelude.{◌≡◌, length, map, IfOk};
ghost use Rattle.pipe_expr.specs.Nullables.{zip_with};
ghost use Rattle.pipe_expr.specs.Operands.{operand_dtype, operand_cells, IsOperand, native_values, zip_native, ZipRows};

use crate::collect::{collect, collect_into};
use crate::kernel::Kernel;
use crate::nullable_values::{ColumnValues, NullableValues, ScalarValue, ValidValues, Zipped};
use crate::operand::Operand;
use pipe_column::{Column, Native, Series, Validities};
use pipe_schema::Text;
use std::alloc::{AllocError, Global};

/// The values of an operand of a fixed-width type.
#[derive(Clone, Copy)]
pub(crate) enum NativeOperand<'a, T> {
    Column(ColumnValues<'a, T>),
    /// A column in which no value is missing, so that loops read no validity.
    Valid(ValidValues<'a, T>),
    Scalar(ScalarValue<T>),
}

/// The values of a column of a type.
#[tactic(auto, using(crate::proofs::Operands::valid_operand))]
fn values_of<T: Native>(series: &Series) -> NativeOperand<'_, T>
    requires { series.now.dtype ≡ T.dtype_of }
    ensures { series.now.cells ≡ map T.cell (native_values result) }
{
    let Some(column) = T::column(series) else {
        unreachable!()
    };
    let (validity, values) = column.parts();
    match validity {
        Validities::All(_) => NativeOperand::Valid(ValidValues { values }),
        Validities::Each(validity) => NativeOperand::Column(ColumnValues { validity, values }),
    }
}

/// The values of an operand of a type.
#[tactic(auto, using(crate::proofs::Operands::operand_rules))]
fn native_operand<'a, T: Native>(rows: usize, operand: &'a Operand<'a>) -> NativeOperand<'a, T>
    requires typed { operand_dtype operand.now ≡ T.dtype_of }
    requires sized { IsOperand rows operand.now }
    ensures { operand_cells rows operand.now ≡ map T.cell (native_values result) }
{
    match operand {
        Operand::Lent(series) => values_of(series),
        Operand::Owned(series) => values_of(series),
        Operand::Constant(_, cell) => {
            let (valid, value) = T::value(cell);
            NativeOperand::Scalar(ScalarValue { valid, value, rows })
        }
    }
}

/// What a kernel gives of some values and an operand's values, row by row.
#[tactic(auto, using(crate::proofs::Operands::operand_rules))]
fn zip_operand<'a, A: NullableValues + Copy, K: Kernel<A::Value>>(
    alloc: Global,
    rows: usize,
    left: &A,
    right: NativeOperand<'a, A::Value>,
    kernel: K,
) -> Result<Column<K::Output>, AllocError>
where
    A::Value: Copy,
    K::Output: Drop,
    requires left { length (A.nullables left.now) ≡ rows }
    requires right { length (native_values right) ≡ rows }
    ensures { IfOk result
        (λ c. c ≡ zip_with K.gives (A.nullables left.now) (native_values right.entry)) }
{
    let left = *left;
    match right {
        NativeOperand::Column(right) => {
            let zipped = Zipped {
                left,
                right,
                kernel,
            };
            Ok(collect(alloc, rows, &zipped)?)
        }
        NativeOperand::Valid(right) => {
            let zipped = Zipped {
                left,
                right,
                kernel,
            };
            Ok(collect(alloc, rows, &zipped)?)
        }
        NativeOperand::Scalar(right) => {
            let zipped = Zipped {
                left,
                right,
                kernel,
            };
            Ok(collect(alloc, rows, &zipped)?)
        }
    }
}

/// What a kernel gives of two operands' values, row by row.
#[tactic(auto, using(crate::proofs::Operands::operand_rules))]
fn zip_values<'a, T: Copy, K: Kernel<T>>(
    alloc: Global,
    rows: usize,
    left: NativeOperand<'a, T>,
    right: NativeOperand<'a, T>,
    kernel: K,
) -> Result<Column<K::Output>, AllocError>
where
    K::Output: Drop,
    requires left { length (native_values left) ≡ rows }
    requires right { length (native_values right) ≡ rows }
    ensures { IfOk result (λ c. c ≡ zip_native K.gives left.entry right.entry) }
{
    match left {
        NativeOperand::Column(left) => Ok(zip_operand(alloc, rows, &left, right, kernel)?),
        NativeOperand::Valid(left) => Ok(zip_operand(alloc, rows, &left, right, kernel)?),
        NativeOperand::Scalar(left) => Ok(zip_operand(alloc, rows, &left, right, kernel)?),
    }
}

/// What a kernel gives of two operands of a type, row by row: a series without a name.
#[tactic(auto, using(crate::proofs::Operands::operand_rules))]
pub(crate) fn zip<T: Native, K: Kernel<T>>(
    alloc: Global,
    rows: usize,
    left: Operand<'_>,
    right: Operand<'_>,
    kernel: K,
) -> Result<Series, AllocError>
where
    K::Output: Native,
    requires left { operand_dtype left ≡ T.dtype_of }
    requires right { operand_dtype right ≡ T.dtype_of }
    requires rows_left { IsOperand rows left }
    requires rows_right { IsOperand rows right }
    ensures dtype { IfOk result (λ made. made.dtype ≡ K.Output.dtype_of) }
    ensures cells { IfOk result (ZipRows T.cell K.Output.cell K.gives rows left.entry right.entry) }
{
    let column = zip_values(
        alloc,
        rows,
        native_operand::<T>(rows, &left),
        native_operand::<T>(rows, &right),
        kernel,
    )?;
    Ok(<K::Output as Native>::into_series(Text::new(alloc), column))
}

/// What a kernel gives of a column and an operand's values, row by row, in the column's memory.
#[tactic(auto, using(crate::proofs::Operands::operand_rules))]
fn zip_column<'a, T: Copy + Drop, K: Kernel<T, Output = T>>(
    left: Column<T>,
    right: NativeOperand<'a, T>,
    kernel: K,
) -> Result<Column<T>, AllocError>
    requires { length (native_values right) ≡ length left }
    ensures { IfOk result (λ made. made ≡ zip_with K.gives left (native_values right.entry)) }
{
    match right {
        NativeOperand::Column(right) => collect_into(left, &right, kernel),
        NativeOperand::Valid(right) => collect_into(left, &right, kernel),
        NativeOperand::Scalar(right) => collect_into(left, &right, kernel),
    }
}

/// What a kernel that keeps the type gives of two operands, row by row, in the memory of the left one where the
/// evaluation owns it: a series without a name.
#[tactic(auto, using(crate::proofs::Operands::operand_rules))]
pub(crate) fn zip_into<T: Native, K: Kernel<T, Output = T>>(
    alloc: Global,
    rows: usize,
    left: Operand<'_>,
    right: Operand<'_>,
    kernel: K,
) -> Result<Series, AllocError>
    requires left { operand_dtype left ≡ T.dtype_of }
    requires right { operand_dtype right ≡ T.dtype_of }
    requires rows_left { IsOperand rows left }
    requires rows_right { IsOperand rows right }
    ensures dtype { IfOk result (λ made. made.dtype ≡ T.dtype_of) }
    ensures cells { IfOk result (ZipRows T.cell T.cell K.gives rows left.entry right.entry) }
{
    match left {
        Operand::Owned(series) => {
            let right = native_operand::<T>(rows, &right);
            let column = zip_column(T::into_column(series), right, kernel)?;
            Ok(T::into_series(Text::new(alloc), column))
        }
        left => Ok(zip::<T, K>(alloc, rows, left, right, kernel)?),
    }
}
