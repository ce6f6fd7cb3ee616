//! The values of expressions over the rows of a frame, a column at a time.

ghost use Rattle.std.specs.Prelude.{◌≡◌, ◌<◌, true, is_some, length, slice_index_or, IfOk};
ghost use Rattle.pipe_expr.specs.Formula.{Formula, formula_of};
ghost use Rattle.pipe_expr.specs.Physical.{column_of};
ghost use Rattle.pipe_expr.specs.Types.{type_of_column};
ghost use Rattle.pipe_expr.specs.Typing.{IsTyped};
ghost use Rattle.pipe_expr.specs.Operands.{IsOperand};
ghost use Rattle.pipe_expr.specs.Evaluation.{IsValueOf, IsOfOperands, dtype_of_two};

use crate::arithmetic::{Arithmetic, calculate};
use crate::comparison::{
    IsEqual, IsGreater, IsGreaterOrEqual, IsLess, IsLessOrEqual, IsOther, compare,
};
use crate::constant::named;
use crate::expr::Expr;
use crate::logic::{both, either, negated};
use crate::null_test::test_for_null;
use crate::operand::Operand;
use pipe_column::Series;
use pipe_frame::DataFrame;
use pipe_schema::Text;
use std::alloc::{AllocError, Global};

/// What an expression's operator gives of the values of its two sides, row by row.
fn apply(
    alloc: Global,
    rows: usize,
    expr: &Expr,
    left: Operand<'_>,
    right: Operand<'_>,
) -> Result<Series, AllocError>
    requires typed { is_some (dtype_of_two (formula_of expr.now) left right) ≡ true }
    requires rows_left { IsOperand rows left }
    requires rows_right { IsOperand rows right }
    ensures { IfOk result (λ s. IsOfOperands (formula_of expr.now) rows left.entry right.entry s) }
{
    match expr {
        Expr::Add(_, _) => Ok(calculate(alloc, rows, Arithmetic::Sum, left, right)?),
        Expr::Sub(_, _) => Ok(calculate(alloc, rows, Arithmetic::Difference, left, right)?),
        Expr::Mul(_, _) => Ok(calculate(alloc, rows, Arithmetic::Product, left, right)?),
        Expr::Eq(_, _) => Ok(compare(alloc, rows, left, right, IsEqual)?),
        Expr::NotEq(_, _) => Ok(compare(alloc, rows, left, right, IsOther)?),
        Expr::Lt(_, _) => Ok(compare(alloc, rows, left, right, IsLess)?),
        Expr::LtEq(_, _) => Ok(compare(alloc, rows, left, right, IsLessOrEqual)?),
        Expr::Gt(_, _) => Ok(compare(alloc, rows, left, right, IsGreater)?),
        Expr::GtEq(_, _) => Ok(compare(alloc, rows, left, right, IsGreaterOrEqual)?),
        Expr::And(_, _) => Ok(both(alloc, rows, left, right)?),
        Expr::Or(_, _) => Ok(either(alloc, rows, left, right)?),
        Expr::Col(_) | Expr::Lit { .. } | Expr::Not(_) | Expr::IsNull(_) | Expr::IsNotNull(_) =>
            unreachable!(),
    }
}

/// The column at a place.
fn column_at(columns: &[Series], i: usize) -> &Series
    requires { i < length columns.now }
    ensures { result.now ≡ slice_index_or columns.now i result.now }
{
    &columns[i]
}

/// The column under a name.
fn column_named<'a>(name: &Text, frame: &'a DataFrame) -> &'a Series
    requires { is_some (type_of_column name.now frame.now.schema) ≡ true }
    ensures { IsValueOf (Formula.Column name.now) frame.now (Operand.Lent result) }
{
    let Some(i) = frame.schema().index_of(name.as_bytes()) else {
        unreachable!()
    };
    column_at(frame.get_columns(), i)
}

/// The values of an expression over the rows of a frame.
fn operand_of<'a>(
    alloc: Global,
    expr: &'a Expr,
    frame: &'a DataFrame,
) -> Result<Operand<'a>, AllocError>
    requires { IsTyped (formula_of expr.now) frame.now.schema }
    ensures { IfOk result (λ operand. IsValueOf (formula_of expr.now) frame.now operand) }
{
    let rows = frame.height();
    match expr {
        Expr::Col(name) => Ok(Operand::Lent(column_named(name, frame))),
        Expr::Lit { dtype, value } => Ok(Operand::Constant(*dtype, value)),
        Expr::Not(inner) => {
            let inner = operand_of(alloc, inner, frame)?;
            Ok(Operand::Owned(negated(alloc, rows, inner)?))
        }
        Expr::IsNull(inner) => {
            let inner = operand_of(alloc, inner, frame)?;
            Ok(Operand::Owned(test_for_null(alloc, rows, inner, true)?))
        }
        Expr::IsNotNull(inner) => {
            let inner = operand_of(alloc, inner, frame)?;
            Ok(Operand::Owned(test_for_null(alloc, rows, inner, false)?))
        }
        Expr::Add(left, right)
        | Expr::Sub(left, right)
        | Expr::Mul(left, right)
        | Expr::Eq(left, right)
        | Expr::NotEq(left, right)
        | Expr::Lt(left, right)
        | Expr::LtEq(left, right)
        | Expr::Gt(left, right)
        | Expr::GtEq(left, right)
        | Expr::And(left, right)
        | Expr::Or(left, right) => {
            let left = operand_of(alloc, left, frame)?;
            let right = operand_of(alloc, right, frame)?;
            Ok(Operand::Owned(apply(alloc, rows, expr, left, right)?))
        }
    }
}

/// The values of an expression over the rows of a frame, as a series under a name.
pub(crate) fn evaluate_expr(
    alloc: Global,
    name: Text,
    expr: &Expr,
    frame: &DataFrame,
) -> Result<Series, AllocError>
    requires { IsTyped (formula_of expr.now) frame.now.schema }
    ensures { IfOk result (λ s. s ≡ column_of name (formula_of expr.now) frame.now) }
{
    let operand = operand_of(alloc, expr, frame)?;
    Ok(named(alloc, name, frame.height(), operand)?)
}
