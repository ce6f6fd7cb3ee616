//! Expressions of one comparison or sum.

use pipe_expr::Expr;
use pipe_schema::{AnyValue, DataType, Text};
use std::alloc::{AllocError, Global};

fn column(alloc: Global, name: &str) -> Result<Box<Expr>, AllocError> {
    let column = Expr::Col(Text::from_str(alloc, name)?);
    Ok(Box::new(alloc, column)?)
}

fn number(alloc: Global, x: i64) -> Result<Box<Expr>, AllocError> {
    let number = Expr::Lit {
        dtype: DataType::Int64,
        value: AnyValue::Int64(x),
    };
    Ok(Box::new(alloc, number)?)
}

/// A column is greater than a number.
pub(crate) fn greater(alloc: Global, name: &str, x: i64) -> Result<Expr, AllocError> {
    Ok(Expr::Gt(column(alloc, name)?, number(alloc, x)?))
}
