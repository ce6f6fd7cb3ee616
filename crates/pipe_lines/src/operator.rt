//! The operators of nodes.

ghost use Rattle.std.specs.Prelude.{◌≡◌, ℕ, ◌≤◌, true, IfOk};
ghost use Rattle.pipe_convert.specs.Joins.{AreSpecs};
ghost use Rattle.pipe_lines.specs.Made.{IsOperatorAt, IsPlaceAt, lets_through};
ghost use Rattle.pipe_plan.specs.Node.{node_of};
ghost use Rattle.pipe_plan.specs.Under.{node_at};
ghost use Rattle.pipe_convert.specs.Nodes.{IsUnder, nodes_in, meaning_in};
ghost use Rattle.pipe_convert.specs.Steps.{GoesThrough};

use crate::settings::settings_of;
use pipe_check::CheckedPlan;
use pipe_convert::{
    filter_operator, function_operator, hstack_operator, numbered, projection_operator,
    simple_projection_operator,
};
use pipe_ops::Pass;
use pipe_plan::IR;
use pipe_rows::KeyHasher;
use pipe_slots::{PhysOperator, PlaceHolder, get_dummy_operator};
use pipe_table::JoinSpec;
use std::alloc::{AllocError, Global};
use std::sync::Arc;

/// The place of the probe of a join.
fn place_at(
    plan: &CheckedPlan,
    specs: &[Option<Arc<JoinSpec>>],
    n: u32,
) -> Result<PlaceHolder, AllocError>
    requires specs { AreSpecs plan.now specs.now }
    requires join { (meaning_in plan.now).is_join n ≡ true }
    ensures { IfOk result (IsPlaceAt plan.now specs.now n) }
{
    plan.known_well_formed();
    match settings_of(specs, n) {
        Some(spec) => Ok(get_dummy_operator(n, spec.clone()?)),
        None => unreachable!(),
    }
}

/// The operator of a node that is given.
fn node_operator<H: KeyHasher>(
    alloc: Global,
    plan: &CheckedPlan,
    specs: &[Option<Arc<JoinSpec>>],
    n: u32,
    node: &IR,
    workers: u32,
) -> Result<PhysOperator<H>, AllocError>
    requires specs { AreSpecs plan.now specs.now }
    requires under { IsUnder plan.now n }
    requires is { node_of node.now ≡ node_at (nodes_in plan.now) n }
    requires through { lets_through (node_of node.now) ≡ true }
    requires workers { 1 ≤ workers }
    ensures { IfOk result (IsOperatorAt plan.now specs.now n) }
{
    plan.known_well_formed();
    match node {
        IR::Filter { input, predicate } => {
            let operator = filter_operator(alloc, plan, n, *input, predicate)?;
            Ok(PhysOperator::Filter(operator))
        }
        IR::SimpleProjection { input, columns } => {
            let operator = simple_projection_operator(plan, n, *input, columns)?;
            Ok(PhysOperator::SimpleProjection(operator))
        }
        IR::Select { input, exprs } => {
            let operator = projection_operator(alloc, plan, n, *input, exprs.as_slice())?;
            Ok(PhysOperator::Projection(operator))
        }
        IR::HStack { input, exprs } => {
            let operator = hstack_operator(alloc, plan, n, *input, exprs.as_slice())?;
            Ok(PhysOperator::Hstack(operator))
        }
        IR::MapFunction { input, function } => {
            let operator = function_operator(alloc, plan, n, *input, function, workers)?;
            Ok(PhysOperator::Function(operator))
        }
        IR::Union { .. } => Ok(PhysOperator::Pass(Pass::new("union"))),
        IR::Join { .. } => {
            let place = place_at(plan, specs, n)?;
            Ok(PhysOperator::PlaceHolder(place))
        }
        IR::DataFrameScan { .. } | IR::Sort { .. } => unreachable!(),
    }
}

/// The operator of a node whose rows those of another go through (polars-pipe's `get_operator`): of a join the place of
/// its probe, and of a union what lets chunks through.
pub fn get_operator<H: KeyHasher>(
    alloc: Global,
    plan: &CheckedPlan,
    specs: &[Option<Arc<JoinSpec>>],
    n: u32,
    workers: u32,
) -> Result<PhysOperator<H>, AllocError>
    requires specs { AreSpecs plan.now specs.now }
    requires through { (given : ℕ) × GoesThrough plan.now given n }
    requires workers { 1 ≤ workers }
    ensures { IfOk result (IsOperatorAt plan.now specs.now n) }
{
    plan.known_well_formed();
    node_operator(alloc, plan, specs, n, numbered(plan, n), workers)
}
