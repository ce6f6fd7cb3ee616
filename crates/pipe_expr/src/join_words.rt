//! The words of joins and functions that the layers share.

use pipe_schema::{List, Text};

/// Which rows a join gives.
#[derive(Clone, Copy, Debug, PartialEq, Eq)]
pub enum JoinType {
    /// The pairs.
    Inner,
    /// The pairs, and each left row without a match.
    Left,
    /// The pairs, and each left row and each right row without a match.
    Full,
    /// Every pair of a left and a right row.
    Cross,
    /// Each left row with a match, once.
    Semi,
    /// Each left row without a match.
    Anti,
}

/// Whether a join's right key columns are dropped from its output.
#[derive(Clone, Copy, Debug, PartialEq, Eq)]
pub enum JoinCoalesce {
    /// They are dropped in inner and left joins.
    JoinSpecific,
    /// They are dropped; semi and anti joins have no right columns.
    CoalesceColumns,
    /// They are kept.
    KeepColumns,
}

/// A column's name and the name that it gets.
#[derive(Debug, Drop)]
pub struct RenamePair {
    pub existing: Text,
    pub new_name: Text,
}

/// A function over a frame.
#[derive(Debug, Drop)]
pub enum FunctionIR {
    /// Per row and per column of `on`: the `index` columns, the column's name under `variable`, its cell under `value`.
    Unpivot {
        on: List<Text>,
        index: List<Text>,
        variable: Text,
        value: Text,
    },
    /// All renamings at once.
    Rename {
        pairs: List<RenamePair>,
    },
}
