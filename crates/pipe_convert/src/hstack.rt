//! The extension by expressions of a node.

ghost use Rattle.std.specs.Prelude.{IfOk};
ghost use Rattle.pipe_expr.specs.Formula.{named_formulas_of};
ghost use Rattle.pipe_plan.specs.Node as node;
ghost use Rattle.pipe_convert.specs.Converted.{IsNode};

use crate::physical::physical_exprs;
use crate::row_by_row::{Hstack, RowByRow};
use pipe_check::CheckedPlan;
use pipe_expr::{NamedExpr, PhysicalExpr};
use pipe_ops::HstackOperator;
use pipe_schema::TryClone;
use std::alloc::{AllocError, Global};

/// The operator of an extension by expressions.
pub fn hstack_operator(
    alloc: Global,
    plan: &CheckedPlan,
    n: u32,
    input: u32,
    exprs: &[NamedExpr],
) -> Result<Hstack, AllocError>
    requires { IsNode plan.now n (node.HStack input (named_formulas_of exprs.now)) }
    ensures { IfOk result (⟦<Hstack as RowByRow>⟧.is_of plan.now n input) }
{
    plan.known_well_formed();
    let _ = plan.schema(n).fields();
    let schema = plan.schema(input);
    let made = physical_exprs(alloc, exprs, schema)?;
    Ok(HstackOperator::new(made, schema.try_clone()?))
}
