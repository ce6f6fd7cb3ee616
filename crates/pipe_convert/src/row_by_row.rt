//! What it says that an operator is that of a node.

use pipe_expr::PhysicalExpr;
use pipe_ops::{FilterOperator, HstackOperator, Operator, ProjectionOperator};

/// Operators over expressions that were made for a schema.
pub type Filter = FilterOperator<PhysicalExpr>;

pub type Projection = ProjectionOperator<PhysicalExpr>;

pub type Hstack = HstackOperator<PhysicalExpr>;

/// An operator that reads nothing that lanes share, and so makes of each row what its node makes of it.
pub trait RowByRow: Operator<Shared = ()> {
    ghost use Rattle.std.specs.Prelude.{ℕ};
    ghost use Rattle.pipe_check.specs.Checked.{Checked};

    /// It is the operator of a node of a plan, which reads one input, and has begun nothing.
    ghost is_of: { (plan : Checked) → (n input : ℕ) → Self → Type 0 };
}

impl<O: Operator<Shared = ()>> RowByRow for O {
    ghost use Rattle.pipe_convert.specs.Converted.{IsOperatorOf};

    ghost is_of = { λ plan n input op. IsOperatorOf plan n input (O.takes op) (O.output op) (λ s. O.each op s tt) (O.serves op tt) (O.idle op) };
}
