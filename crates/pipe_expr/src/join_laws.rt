//! The law of a join's shares.

ghost use Rattle.std.specs.Prelude.{List, true, false};
ghost use Rattle.pipe_schema.specs.Rows.{Row as Cells, Same};
ghost use Rattle.pipe_expr.specs.Joins.{Join, join_rows};
ghost use Rattle.pipe_expr.specs.Shares.{all_shares};

/// What the rows of one side make when they are probed against the other, and what the other, built side has of
/// its own, are together the rows of the join: with the right side built, and with the left side built.
pub fn shares_are_the_join()
    ensures right { (j : Join) (l r : List Cells) → Same (all_shares j true l r) (join_rows j l r) }
    ensures left { (j : Join) (l r : List Cells) → Same (all_shares j false r l) (join_rows j l r) }
{}
