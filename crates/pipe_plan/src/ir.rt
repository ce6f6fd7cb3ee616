//! The nodes of a plan.

use pipe_expr::{Expr, FunctionIR, JoinCoalesce, JoinType, NamedExpr};
use pipe_schema::{List, Text};

/// A node of a plan. Its inputs are numbers of nodes.
#[derive(Debug, Drop)]
pub enum IR {
    /// The rows of a frame of the arena, cut to some columns where they are named.
    DataFrameScan {
        frame: u32,
        columns: Option<List<Text>>,
    },
    /// The rows at which the predicate is true.
    Filter {
        input: u32,
        predicate: Expr,
    },
    /// The named columns, in this order.
    SimpleProjection {
        input: u32,
        columns: List<Text>,
    },
    /// One column per expression.
    Select {
        input: u32,
        exprs: List<NamedExpr>,
    },
    /// The input's columns, and one per expression, which replaces a column of its name in its place.
    HStack {
        input: u32,
        exprs: List<NamedExpr>,
    },
    /// A function over the rows.
    MapFunction {
        input: u32,
        function: FunctionIR,
    },
    /// The rows of the inputs, one input after another.
    Union {
        inputs: List<u32>,
    },
    /// The join of two inputs on keys.
    Join {
        left: u32,
        right: u32,
        left_on: List<Expr>,
        right_on: List<Expr>,
        options: JoinOptions,
    },
    /// The input's rows in order, and of these a slice.
    Sort {
        input: u32,
        by: List<Text>,
        options: SortOptions,
    },
}

/// How two inputs are joined.
#[derive(Debug, Drop)]
pub struct JoinOptions {
    pub how: JoinType,
    pub join_nulls: bool,
    pub coalesce: JoinCoalesce,
    pub suffix: Text,
    pub rows_left: RowsHint,
    pub rows_right: RowsHint,
}

/// How many rows an input may have: the number if it is known, and an estimate. Hints change no row.
#[derive(Clone, Copy, Debug, PartialEq, Eq)]
pub struct RowsHint {
    pub known: Option<u64>,
    pub estimate: u64,
}

/// In which order rows are put: a flag per key, or one for all keys; and which of the rows are kept.
#[derive(Debug, Drop)]
pub struct SortOptions {
    pub descending: List<bool>,
    pub nulls_last: List<bool>,
    pub slice: Option<PlanSlice>,
}

/// The rows that are kept: `offset` are skipped, and then at most `len` are taken.
#[derive(Clone, Copy, Debug, PartialEq, Eq)]
pub struct PlanSlice {
    pub offset: i64,
    pub len: u64,
}
