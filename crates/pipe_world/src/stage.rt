//! What schedules see of a node.

use pipe_expr::{Expr, FunctionIR, NamedExpr};
use pipe_frame::Row;
use pipe_pairs::Sides;
use pipe_plan::SortOptions;
use pipe_schema::{Field, List, Text};

/// What goes row by row.
#[derive(Clone, Copy)]
pub enum RowOp<'a> {
    /// The rows at which an expression is true.
    Filter(&'a Expr),
    /// The named cells.
    Columns(&'a List<Text>),
    /// The cells of expressions.
    Select(&'a List<NamedExpr>),
    /// The row with the cells of expressions.
    HStack(&'a List<NamedExpr>),
    /// A function.
    Function(&'a FunctionIR),
}

/// A join with the side that is built, and the nodes of both sides.
#[derive(Clone, Copy)]
pub struct JoinStage<'a> {
    pub sides: Sides<'a>,
    pub right_built: bool,
    pub probe: u32,
    pub build: u32,
}

/// A node as its schedules see it.
#[derive(Clone, Copy)]
pub enum Stage<'a> {
    /// The rows of a scan.
    Scan(&'a [Row]),
    /// What goes row by row over an input of this schema.
    Each {
        input: u32,
        schema: &'a [Field],
        op: RowOp<'a>,
    },
    /// The rows of the inputs.
    Union(&'a [u32]),
    /// The rows of an input of this schema in order, and of these a slice.
    Sort {
        input: u32,
        schema: &'a [Field],
        by: &'a List<Text>,
        options: &'a SortOptions,
    },
    /// A join.
    Joined(JoinStage<'a>),
}
