//! Expressions of several operators.

use crate::exprs::told::expr_line;
use pipe_expr::{Expr, NamedExpr};
use pipe_frame::DataChunk;
use pipe_schema::Text;
use std::alloc::{AllocError, Global};
use worked_builders::Operand::{Col, Int};
use worked_builders::WrittenExpr::{Add, Eq, Gt, Just, Not};
use worked_builders::{WrittenExpr, expr_of};

fn boxed(alloc: Global, written: WrittenExpr) -> Result<Box<Expr>, AllocError> {
    Ok(Box::new(alloc, expr_of(alloc, written)?)?)
}

fn named(alloc: Global, name: &str, expr: Expr) -> Result<NamedExpr, AllocError> {
    let name = Text::from_str(alloc, name)?;
    Ok(NamedExpr { name, expr })
}

/// Whether `k > 0` isn't null.
fn is_known(alloc: Global) -> Result<Expr, AllocError> {
    Ok(Expr::IsNotNull(boxed(alloc, Gt(Col("k"), Int(0)))?))
}

/// `(k + 1) * k`
fn product(alloc: Global) -> Result<Expr, AllocError> {
    let sum = boxed(alloc, Add(Col("k"), Int(1)))?;
    Ok(Expr::Mul(sum, boxed(alloc, Just(Col("k")))?))
}

/// `2 - (k + 1) * k`
fn difference(alloc: Global) -> Result<Expr, AllocError> {
    let product = Box::new(alloc, product(alloc)?)?;
    Ok(Expr::Sub(boxed(alloc, Just(Int(2)))?, product))
}

/// `k > 0 and not (k = 5)`
fn logic(alloc: Global) -> Result<Expr, AllocError> {
    let positive = boxed(alloc, Gt(Col("k"), Int(0)))?;
    let is_5 = boxed(alloc, Eq(Col("k"), Int(5)))?;
    let not_5 = Box::new(alloc, Expr::Not(is_5))?;
    Ok(Expr::And(positive, not_5))
}

/// `not k and y`: the unknown name is told.
fn unknown(alloc: Global) -> Result<Expr, AllocError> {
    let mismatch = boxed(alloc, Not(Col("k")))?;
    Ok(Expr::And(mismatch, boxed(alloc, Just(Col("y")))?))
}

fn push_line(
    alloc: Global,
    lines: &mut String,
    name: &str,
    expr: Expr,
    chunk: &DataChunk,
) -> Result<(), AllocError> {
    let expr = named(alloc, name, expr)?;
    lines.push_str(expr_line(alloc, &expr, chunk)?.as_str())
}

/// The lines of these expressions over a chunk with the column `k`.
pub(crate) fn lines(alloc: Global, chunk: &DataChunk) -> Result<String, AllocError> {
    let mut lines = String::from_str(alloc, "# several operators\n")?;
    push_line(alloc, &mut lines, "is_known", is_known(alloc)?, chunk)?;
    push_line(alloc, &mut lines, "product", product(alloc)?, chunk)?;
    push_line(alloc, &mut lines, "difference", difference(alloc)?, chunk)?;
    push_line(alloc, &mut lines, "logic", logic(alloc)?, chunk)?;
    push_line(alloc, &mut lines, "unknown", unknown(alloc)?, chunk)?;
    Ok(lines)
}
