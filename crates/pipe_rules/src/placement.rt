//! Where a conjunct goes.

use pipe_expr::Expr;

/// Where a conjunct of a filter goes, with what it is there.
#[derive(Debug, Drop)]
pub enum Placement {
    /// It stays above the node.
    Above(Expr),
    /// It goes onto each input of the node.
    OnInputs(Expr),
    /// It goes onto the left input of a join.
    OnLeft(Expr),
    /// It goes onto the right input of a join.
    OnRight(Expr),
}
