//! Expressions over the columns of a row.

use pipe_schema::{AnyValue, DataType, Text};

/// An expression over a row.
#[derive(Debug, Drop)]
pub enum Expr {
    /// The cell under a name.
    Col(Text),
    /// A value of a type, or null of that type.
    Lit { dtype: DataType, value: AnyValue },
    Add(Box<Expr>, Box<Expr>),
    Sub(Box<Expr>, Box<Expr>),
    Mul(Box<Expr>, Box<Expr>),
    Eq(Box<Expr>, Box<Expr>),
    NotEq(Box<Expr>, Box<Expr>),
    Lt(Box<Expr>, Box<Expr>),
    LtEq(Box<Expr>, Box<Expr>),
    Gt(Box<Expr>, Box<Expr>),
    GtEq(Box<Expr>, Box<Expr>),
    And(Box<Expr>, Box<Expr>),
    Or(Box<Expr>, Box<Expr>),
    Not(Box<Expr>),
    IsNull(Box<Expr>),
    IsNotNull(Box<Expr>),
}

/// An expression with the name of its column.
#[derive(Debug, Drop)]
pub struct NamedExpr {
    pub name: Text,
    pub expr: Expr,
}
