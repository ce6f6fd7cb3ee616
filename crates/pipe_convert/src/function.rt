//! The function of a node.

ghost use Rattle.std.specs.Prelude.{◌≤◌, IfOk};
ghost use Rattle.pipe_plan.specs.Node as node;
ghost use Rattle.pipe_convert.specs.Converted.{IsNode};

use crate::row_by_row::RowByRow;
use pipe_check::CheckedPlan;
use pipe_expr::FunctionIR;
use pipe_schema::TryClone;
use pipe_source::FunctionOperator;
use std::alloc::{AllocError, Global};

/// The operator of a function, for so many workers.
pub fn function_operator(
    alloc: Global,
    plan: &CheckedPlan,
    n: u32,
    input: u32,
    function: &FunctionIR,
    workers: u32,
) -> Result<FunctionOperator, AllocError>
    requires node { IsNode plan.now n (node.MapFunction input function.now) }
    requires workers { 1 ≤ workers }
    ensures { IfOk result (⟦<FunctionOperator as RowByRow>⟧.is_of plan.now n input) }
{
    plan.known_well_formed();
    let _ = plan.schema(n).fields();
    Ok(FunctionOperator::new(alloc, function.try_clone()?, workers))
}
