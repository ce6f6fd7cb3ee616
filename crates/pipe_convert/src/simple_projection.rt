//! The projection by names of a node.

ghost use Rattle.std.specs.Prelude.{IfOk};
ghost use Rattle.pipe_plan.specs.Node as node;
ghost use Rattle.pipe_convert.specs.Converted.{IsNode};

use crate::row_by_row::RowByRow;
use pipe_check::CheckedPlan;
use pipe_ops::SimpleProjectionOperator;
use pipe_schema::{List, Text, TryClone};
use std::alloc::AllocError;

/// The operator of a projection by names.
pub fn simple_projection_operator(
    plan: &CheckedPlan,
    n: u32,
    input: u32,
    columns: &List<Text>,
) -> Result<SimpleProjectionOperator, AllocError>
    requires { IsNode plan.now n (node.SimpleProjection input columns.now) }
    ensures { IfOk result (⟦<SimpleProjectionOperator as RowByRow>⟧.is_of plan.now n input) }
{
    plan.known_well_formed();
    let _ = plan.schema(n).fields();
    let input_schema = plan.schema(input).try_clone()?;
    Ok(SimpleProjectionOperator::new(columns.try_clone()?, input_schema))
}
