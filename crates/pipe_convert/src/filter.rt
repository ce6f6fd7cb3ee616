//! The filter of a node.

ghost use Rattle.std.specs.Prelude.{IfOk};
ghost use Rattle.pipe_expr.specs.Formula.{formula_of};
ghost use Rattle.pipe_plan.specs.Node as node;
ghost use Rattle.pipe_convert.specs.Converted.{IsNode};

use crate::row_by_row::{Filter, RowByRow};
use pipe_check::CheckedPlan;
use pipe_expr::{Expr, NamedExpr, PhysicalExpr, to_physical};
use pipe_ops::FilterOperator;
use pipe_schema::Text;
use std::alloc::{AllocError, Global};
use std::sync::Arc;

/// The operator of a filter.
pub fn filter_operator(
    alloc: Global,
    plan: &CheckedPlan,
    n: u32,
    input: u32,
    predicate: &Expr,
) -> Result<Filter, AllocError>
    requires { IsNode plan.now n (node.Filter input (formula_of predicate.now)) }
    ensures { IfOk result (⟦<Filter as RowByRow>⟧.is_of plan.now n input) }
{
    plan.known_well_formed();
    let named = NamedExpr {
        name: Text::from_str(alloc, "predicate")?,
        expr: predicate.try_clone()?,
    };
    let predicate = to_physical(alloc, &named, plan.schema(input))?;
    Ok(FilterOperator::new(Arc::new(alloc, predicate)?))
}
