//! Which side of a join is built.

ghost use Rattle.std.specs.Prelude.{◌≡◌, nat_lt};
ghost use Rattle.pipe_plan.specs.Swap.{is_larger, swaps};

use crate::ir::{JoinOptions, RowsHint};
use pipe_expr::JoinType;

/// Whether the left side has more rows: by the known sizes where both are there, else by the estimates.
fn is_left_larger(left: RowsHint, right: RowsHint) -> bool
    ensures { result ≡ is_larger left.known right.known left.estimate right.estimate }
{
    match (left.known, right.known) {
        (Some(left), Some(right)) => right < left,
        _ => right.estimate < left.estimate,
    }
}

/// Whether the right side is built: in each left join, else where the left side is the larger one
/// (polars-pipe's `swap_join_order`).
pub fn swap_join_order(options: &JoinOptions) -> bool
    ensures { result ≡ swaps options.now }
{
    match options.how {
        JoinType::Left => true,
        JoinType::Inner | JoinType::Full | JoinType::Cross | JoinType::Semi | JoinType::Anti => {
            is_left_larger(options.rows_left, options.rows_right)
        }
    }
}
