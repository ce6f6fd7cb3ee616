//! Expressions as they are written in a plan.

use pipe_expr::{Expr, NamedExpr};
use pipe_schema::{AnyValue, DataType, List, Text};
use std::alloc::{AllocError, Global};
use worked_columns::cell_of;

/// What an operator stands between.
#[derive(Clone, Copy)]
pub enum Operand {
    /// The column of a name.
    Col(&'static str),
    /// A number of type `Int64`.
    Int(i64),
    True,
    /// A value of a type, written as a cell is.
    Value(DataType, &'static str),
    /// A literal of type `Int64` whose value is a truth value.
    Misfit,
}

/// An expression of one operator at most.
#[derive(Clone, Copy)]
pub enum WrittenExpr {
    Just(Operand),
    Add(Operand, Operand),
    Sub(Operand, Operand),
    Mul(Operand, Operand),
    Eq(Operand, Operand),
    NotEq(Operand, Operand),
    Lt(Operand, Operand),
    LtEq(Operand, Operand),
    Gt(Operand, Operand),
    GtEq(Operand, Operand),
    And(Operand, Operand),
    Or(Operand, Operand),
    Not(Operand),
    IsNull(Operand),
    IsNotNull(Operand),
}

fn expr_of_operand(alloc: Global, operand: Operand) -> Result<Expr, AllocError> {
    match operand {
        Operand::Col(name) => Ok(Expr::Col(Text::from_str(alloc, name)?)),
        Operand::Int(x) => Ok(Expr::Lit {
            dtype: DataType::Int64,
            value: AnyValue::Int64(x),
        }),
        Operand::True => Ok(Expr::Lit {
            dtype: DataType::Boolean,
            value: AnyValue::Boolean(true),
        }),
        Operand::Value(dtype, written) => Ok(Expr::Lit {
            dtype,
            value: cell_of(alloc, dtype, written)?,
        }),
        Operand::Misfit => Ok(Expr::Lit {
            dtype: DataType::Int64,
            value: AnyValue::Boolean(true),
        }),
    }
}

fn boxed(alloc: Global, operand: Operand) -> Result<Box<Expr>, AllocError> {
    Ok(Box::new(alloc, expr_of_operand(alloc, operand)?)?)
}

/// The expression that is written so.
pub fn expr_of(alloc: Global, written: WrittenExpr) -> Result<Expr, AllocError> {
    match written {
        WrittenExpr::Just(a) => expr_of_operand(alloc, a),
        WrittenExpr::Add(a, b) => Ok(Expr::Add(boxed(alloc, a)?, boxed(alloc, b)?)),
        WrittenExpr::Sub(a, b) => Ok(Expr::Sub(boxed(alloc, a)?, boxed(alloc, b)?)),
        WrittenExpr::Mul(a, b) => Ok(Expr::Mul(boxed(alloc, a)?, boxed(alloc, b)?)),
        WrittenExpr::Eq(a, b) => Ok(Expr::Eq(boxed(alloc, a)?, boxed(alloc, b)?)),
        WrittenExpr::NotEq(a, b) => Ok(Expr::NotEq(boxed(alloc, a)?, boxed(alloc, b)?)),
        WrittenExpr::Lt(a, b) => Ok(Expr::Lt(boxed(alloc, a)?, boxed(alloc, b)?)),
        WrittenExpr::LtEq(a, b) => Ok(Expr::LtEq(boxed(alloc, a)?, boxed(alloc, b)?)),
        WrittenExpr::Gt(a, b) => Ok(Expr::Gt(boxed(alloc, a)?, boxed(alloc, b)?)),
        WrittenExpr::GtEq(a, b) => Ok(Expr::GtEq(boxed(alloc, a)?, boxed(alloc, b)?)),
        WrittenExpr::And(a, b) => Ok(Expr::And(boxed(alloc, a)?, boxed(alloc, b)?)),
        WrittenExpr::Or(a, b) => Ok(Expr::Or(boxed(alloc, a)?, boxed(alloc, b)?)),
        WrittenExpr::Not(a) => Ok(Expr::Not(boxed(alloc, a)?)),
        WrittenExpr::IsNull(a) => Ok(Expr::IsNull(boxed(alloc, a)?)),
        WrittenExpr::IsNotNull(a) => Ok(Expr::IsNotNull(boxed(alloc, a)?)),
    }
}

/// The expressions that are written so.
pub fn exprs_of(alloc: Global, written: &[WrittenExpr]) -> Result<List<Expr>, AllocError> {
    let mut made = List::new(alloc);
    for one in written {
        made.push(expr_of(alloc, *one)?)?;
    }
    Ok(made)
}

/// The expressions that are written so, with the names of their columns.
pub fn named_exprs_of(
    alloc: Global,
    written: &[(&str, WrittenExpr)],
) -> Result<List<NamedExpr>, AllocError> {
    let mut made = List::new(alloc);
    for (name, one) in written {
        let name = Text::from_str(alloc, name)?;
        made.push(NamedExpr {
            name,
            expr: expr_of(alloc, *one)?,
        })?;
    }
    Ok(made)
}
