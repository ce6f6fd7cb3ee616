//! What is replayed.

use crate::row_edit::RowEdit;
use pipe_expr::Expr;
use pipe_frame::DataFrame;
use pipe_plan::JoinOptions;
use pipe_schema::List;

/// The keys and the options of a join of two tables.
#[derive(Debug, Drop)]
pub struct KeptJoin {
    pub left_on: List<Expr>,
    pub right_on: List<Expr>,
    pub options: JoinOptions,
}

/// Two tables, their join, how many rows a table or the join may have, and edits of the tables.
#[derive(Debug, Drop)]
pub struct Replay {
    /// 1 or 2. Only version 2 has the type Int128.
    pub version: u32,
    pub row_limit: u32,
    pub left: DataFrame,
    pub right: DataFrame,
    pub join: KeptJoin,
    pub edits: List<RowEdit>,
}
