//! A join at the root of a plan, with the frames that its inputs scan.

ghost use Rattle.std.specs.Prelude.{◌≡◌, true, IfOk};
ghost use Rattle.pipe_plan.specs.Node.{node_of};
ghost use Rattle.pipe_plan.specs.Plan.{plan_of};
ghost use Rattle.pipe_plan.specs.Node as node;
ghost use Rattle.pipe_plan.specs.Under.{is_under, node_at};
ghost use Rattle.pipe_expr.specs.Formula.{formulas_of};
ghost use Rattle.pipe_table.specs.Spec.{IsSpec};
ghost use Rattle.pipe_convert.specs.Converted.{IsNode, schema_in};
ghost use Rattle.worked_operators.specs.Sides.{IsSideOrNone, AreSidesOrNone};

use pipe_check::CheckedPlan;
use pipe_convert::{join_spec, scan_frame};
use pipe_expr::Expr;
use pipe_frame::DataFrame;
use pipe_plan::{IR, JoinOptions};
use pipe_table::JoinSpec;
use std::alloc::{AllocError, Global};

/// The settings of a join, and the frames of its sides.
#[derive(Drop)]
pub(crate) struct Sides {
    pub(crate) spec: JoinSpec,
    pub(crate) left: DataFrame,
    pub(crate) right: DataFrame,
}

/// The most rows of a side.
const MOST: usize = 4_294_967_294;

/// The node of a number that is under the root.
fn numbered<'a>(plan: &CheckedPlan<'a>, n: u32) -> &'a IR
    requires { is_under (plan_of plan.now.arena).nodes plan.now.root n ≡ true }
    ensures { node_of result.now ≡ node_at (plan_of plan.now.arena).nodes n }
{
    plan.known_well_formed();
    &plan.arena().nodes.as_slice()[n as usize]
}

/// The frame of a scan, none where the node is no scan or its frame has too many rows.
fn scanned(plan: &CheckedPlan, n: u32) -> Result<Option<DataFrame>, AllocError>
    requires { is_under (plan_of plan.now.arena).nodes plan.now.root n ≡ true }
    ensures { IfOk result (IsSideOrNone (schema_in plan.now n)) }
{
    match numbered(plan, n) {
        IR::DataFrameScan { frame, columns } => {
            let frame = scan_frame(plan, n, *frame, columns)?;
            Ok(few_or_none(frame))
        }
        _ => Ok(None),
    }
}

/// A frame, none where it has too many rows.
fn few_or_none(frame: DataFrame) -> Option<DataFrame>
    ensures { IsSideOrNone frame.schema result }
{
    if frame.height() > MOST {
        None
    } else {
        Some(frame)
    }
}

/// A join with its sides, none where one of them isn't there.
fn both(spec: JoinSpec, left: Option<DataFrame>, right: Option<DataFrame>) -> Option<Sides>
    requires good { IsSpec spec }
    requires left { IsSideOrNone spec.left_schema left }
    requires right { IsSideOrNone spec.right_schema right }
    ensures { AreSidesOrNone result }
{
    match (left, right) {
        (Some(left), Some(right)) => Some(Sides { spec, left, right }),
        _ => None,
    }
}

/// A join of a plan with its sides, none where one of them is no scan.
fn join_of(
    alloc: Global,
    plan: &CheckedPlan,
    n: u32,
    left: u32,
    right: u32,
    left_on: &[Expr],
    right_on: &[Expr],
    options: &JoinOptions,
) -> Result<Option<Sides>, AllocError>
    requires { let left_on = formulas_of left_on.now in
        let right_on = formulas_of right_on.now in
        IsNode plan.now n (node.Join left right left_on right_on options.now) }
    ensures { IfOk result AreSidesOrNone }
{
    plan.known_well_formed();
    let spec = join_spec(alloc, plan, n, left, right, left_on, right_on, options)?;
    let lefts = scanned(plan, left)?;
    let rights = scanned(plan, right)?;
    Ok(both(spec, lefts, rights))
}

/// The join of a number with its sides, none where the node is no join of two scans.
fn sides_at(alloc: Global, plan: &CheckedPlan, n: u32) -> Result<Option<Sides>, AllocError>
    requires { is_under (plan_of plan.now.arena).nodes plan.now.root n ≡ true }
    ensures { IfOk result AreSidesOrNone }
{
    match numbered(plan, n) {
        IR::Join {
            left,
            right,
            left_on,
            right_on,
            options,
        } => {
            let lefts = left_on.as_slice();
            let rights = right_on.as_slice();
            let made = join_of(alloc, plan, n, *left, *right, lefts, rights, options)?;
            Ok(made)
        }
        _ => Ok(None),
    }
}

/// The join at the root with its sides, none where the root is no join of two scans.
pub(crate) fn join_at_root(alloc: Global, plan: &CheckedPlan) -> Result<Option<Sides>, AllocError>
    ensures { IfOk result AreSidesOrNone }
{
    let made = sides_at(alloc, plan, plan.root())?;
    Ok(made)
}
