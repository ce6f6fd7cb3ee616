//! Why an expression has no type: the first of its parts whose sides don't fit each other.

use pipe_check::{Columns, expr_type};
use pipe_expr::Expr;
use pipe_schema::DataType;
use pipe_why_text::type_word;
use std::alloc::AllocError;
use std::fmt::Write;

/// What an operator takes.
#[derive(Clone, Copy)]
enum Takes {
    /// Two whole numbers of one type.
    Numbers,
    /// Two values of one type.
    Alike,
    /// Two truth values.
    Truths,
    /// One truth value.
    Truth,
}

/// What an operator takes, in words.
fn takes_words(takes: Takes) -> &'static str {
    match takes {
        Takes::Numbers => "two sides of one type of whole numbers",
        Takes::Alike => "two sides of one type",
        Takes::Truths => "two sides of type Boolean",
        Takes::Truth => "a value of type Boolean",
    }
}

/// The word of an operator.
fn word_of(expr: &Expr) -> &'static str {
    match expr {
        Expr::Col(_) => "col",
        Expr::Lit { .. } => "lit",
        Expr::Add(_, _) => "add",
        Expr::Sub(_, _) => "sub",
        Expr::Mul(_, _) => "mul",
        Expr::Eq(_, _) => "eq",
        Expr::NotEq(_, _) => "not_eq",
        Expr::Lt(_, _) => "lt",
        Expr::LtEq(_, _) => "lt_eq",
        Expr::Gt(_, _) => "gt",
        Expr::GtEq(_, _) => "gt_eq",
        Expr::And(_, _) => "and",
        Expr::Or(_, _) => "or",
        Expr::Not(_) => "not",
        Expr::IsNull(_) => "is_null",
        Expr::IsNotNull(_) => "is_not_null",
    }
}

/// Appends the type of an expression.
fn push_type(out: &mut String, expr: &Expr, columns: &Columns) -> Result<(), AllocError> {
    match expr_type(expr, columns) {
        Some(dtype) => out.push_str(type_word(dtype)),
        None => out.push_str("none"),
    }
}

/// Appends that the sides of an operator have types that it doesn't take.
fn push_sides(
    out: &mut String,
    path: &str,
    takes: Takes,
    left: &Expr,
    right: &Expr,
    columns: &Columns,
) -> Result<(), AllocError> {
    write!(
        out,
        ": {path} has no type\nexpected: {}\nfound: ",
        takes_words(takes)
    )?;
    push_type(out, left, columns)?;
    out.push_str(" and ")?;
    push_type(out, right, columns)?;
    out.push_str("\n")?;
    let takes_numbers = match takes {
        Takes::Numbers => true,
        Takes::Alike | Takes::Truths | Takes::Truth => false,
    };
    if !takes_numbers && expr_type(left, columns) == expr_type(right, columns) {
        return Ok(());
    }
    push_literal_hint(out, left, right)
}

/// Appends that a literal may be given the type of the other side.
fn push_literal_hint(out: &mut String, left: &Expr, right: &Expr) -> Result<(), AllocError> {
    let is_literal = match (left, right) {
        (Expr::Lit { .. }, _) => true,
        (_, Expr::Lit { .. }) => true,
        _ => false,
    };
    if is_literal {
        return out.push_str(
            "hint: a literal has the type that is written with it: give it that of the other side\n",
        );
    }
    Ok(())
}

/// Appends that what an operator takes isn't a truth value.
fn push_inner(
    out: &mut String,
    path: &str,
    inner: &Expr,
    columns: &Columns,
) -> Result<(), AllocError> {
    write!(
        out,
        ": {path} has no type\nexpected: {}\nfound: ",
        takes_words(Takes::Truth)
    )?;
    push_type(out, inner, columns)?;
    out.push_str("\n")
}

/// Whether an expression has no type.
fn is_untyped(expr: &Expr, columns: &Columns) -> bool {
    expr_type(expr, columns).is_none()
}

/// Appends why an expression has no type, under the path that leads to it: the first part, from the left, of which all
/// parts have one.
pub(crate) fn push_untyped(
    out: &mut String,
    path: &mut String,
    expr: &Expr,
    columns: &Columns,
) -> Result<(), AllocError> {
    write!(path, ".{}", word_of(expr))?;
    let takes = match expr {
        Expr::Add(_, _) | Expr::Sub(_, _) | Expr::Mul(_, _) => Takes::Numbers,
        Expr::And(_, _) | Expr::Or(_, _) => Takes::Truths,
        _ => Takes::Alike,
    };
    match expr {
        Expr::Add(left, right)
        | Expr::Sub(left, right)
        | Expr::Mul(left, right)
        | Expr::Eq(left, right)
        | Expr::NotEq(left, right)
        | Expr::Lt(left, right)
        | Expr::LtEq(left, right)
        | Expr::Gt(left, right)
        | Expr::GtEq(left, right)
        | Expr::And(left, right)
        | Expr::Or(left, right) => {
            if is_untyped(left, columns) {
                path.push_str("[0]")?;
                return push_untyped(out, path, left, columns);
            }
            if is_untyped(right, columns) {
                path.push_str("[1]")?;
                return push_untyped(out, path, right, columns);
            }
            push_sides(out, path.as_str(), takes, left, right, columns)
        }
        Expr::Not(inner) | Expr::IsNull(inner) | Expr::IsNotNull(inner) => {
            if is_untyped(inner, columns) {
                return push_untyped(out, path, inner, columns);
            }
            push_inner(out, path.as_str(), inner, columns)
        }
        Expr::Col(_) | Expr::Lit { .. } => { write!(out, ": {} has no type\n", path.as_str()) }
    }
}

/// The type of an expression as a word, where it has one.
pub(crate) fn type_or_none(dtype: Option<DataType>) -> &'static str {
    match dtype {
        Some(dtype) => type_word(dtype),
        None => "none",
    }
}
