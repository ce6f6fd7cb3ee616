//! How joins are written in a plan.

use crate::expr::{Operand, WrittenExpr};
use pipe_expr::{JoinCoalesce, JoinType};
use pipe_plan::{JoinOptions, RowsHint};
use pipe_schema::Text;
use std::alloc::{AllocError, Global};

/// How many rows an input may have: the number if it is known, and an estimate.
pub type WrittenHint = (Option<u64>, u64);

/// The keys and the options of a join.
#[derive(Clone, Copy)]
pub struct WrittenJoin {
    pub left_on: &'static [WrittenExpr],
    pub right_on: &'static [WrittenExpr],
    pub how: JoinType,
    pub join_nulls: bool,
    pub coalesce: JoinCoalesce,
    pub suffix: &'static str,
    pub rows_left: WrittenHint,
    pub rows_right: WrittenHint,
}

/// The inner join on both columns `k`. Each other join says in what it differs.
pub const INNER_ON_K: WrittenJoin = WrittenJoin {
    left_on: &[WrittenExpr::Just(Operand::Col("k"))],
    right_on: &[WrittenExpr::Just(Operand::Col("k"))],
    how: JoinType::Inner,
    join_nulls: false,
    coalesce: JoinCoalesce::JoinSpecific,
    suffix: "_right",
    rows_left: (None, 0),
    rows_right: (None, 0),
};

fn hint((known, estimate): WrittenHint) -> RowsHint {
    RowsHint { known, estimate }
}

impl WrittenJoin {
    pub(crate) fn options(self, alloc: Global) -> Result<JoinOptions, AllocError> {
        Ok(JoinOptions {
            how: self.how,
            join_nulls: self.join_nulls,
            coalesce: self.coalesce,
            suffix: Text::from_str(alloc, self.suffix)?,
            rows_left: hint(self.rows_left),
            rows_right: hint(self.rows_right),
        })
    }
}
