//! The settings of a plan's joins.

ghost use Rattle.std.specs.Prelude.{◌≡◌, ℕ, length, IfOk};
ghost use Rattle.pipe_plan.specs.Under.{is_under};
ghost use Rattle.pipe_check.specs.Checking.{is_marked};
ghost use Rattle.pipe_convert.specs.Joins.{AreSpecs, IsOfJoin};
ghost use Rattle.pipe_convert.specs.Nodes.{IsUnder, nodes_in};

use crate::join::join_spec;
use crate::nodes::{marked_nodes, node_count, numbered};
use pipe_check::CheckedPlan;
use pipe_plan::IR;
use pipe_table::JoinSpec;
use std::alloc::{AllocError, Global};
use std::sync::Arc;

/// The settings of a join under the root, and none of any other node.
fn spec_of(alloc: Global, plan: &CheckedPlan, n: u32) -> Result<Option<Arc<JoinSpec>>, AllocError>
    requires { IsUnder plan.now n }
    ensures { IfOk result (IsOfJoin plan.now n) }
{
    plan.known_well_formed();
    match numbered(plan, n) {
        IR::Join {
            left,
            right,
            left_on,
            right_on,
            options,
        } => {
            let left_on = left_on.as_slice();
            let right_on = right_on.as_slice();
            let spec = join_spec(alloc, plan, n, *left, *right, left_on, right_on, options)?;
            Ok(Some(Arc::new(alloc, spec)?))
        }
        IR::DataFrameScan { .. }
        | IR::Filter { .. }
        | IR::SimpleProjection { .. }
        | IR::Select { .. }
        | IR::HStack { .. }
        | IR::MapFunction { .. }
        | IR::Union { .. }
        | IR::Sort { .. } => Ok(None),
    }
}

/// The settings of the join at a node that is under the root; none of any other node.
fn spec_under(
    alloc: Global,
    plan: &CheckedPlan,
    n: u32,
    under: bool,
) -> Result<Option<Arc<JoinSpec>>, AllocError>
    requires { is_under (nodes_in plan.now) plan.now.root n ≡ under }
    ensures { IfOk result (IsOfJoin plan.now n) }
{
    if under {
        spec_of(alloc, plan, n)
    } else {
        Ok(None)
    }
}

/// The settings of each join among the nodes under the root.
fn specs_under(
    alloc: Global,
    plan: &CheckedPlan,
    under: &[bool],
) -> Result<Vec<Option<Arc<JoinSpec>>>, AllocError>
    requires marks { (n : ℕ) → is_marked under.now n ≡ is_under (nodes_in plan.now) plan.now.root n }
    requires sized { length under.now ≡ length (nodes_in plan.now) }
    ensures { IfOk result (λ specs. AreSpecs plan.now specs.items) }
{
    plan.known_well_formed();
    let nodes = node_count(plan);
    let mut specs = Vec::new(alloc);
    for n in 0..nodes {
        let marked = under[n as usize];
        specs.push(spec_under(alloc, plan, n, marked)?)?;
    }
    Ok(specs)
}

/// The settings of each join under the root, by its number (polars-pipe's `CallBacks`): one for all that is made of it.
pub fn join_specs(
    alloc: Global,
    plan: &CheckedPlan,
) -> Result<Vec<Option<Arc<JoinSpec>>>, AllocError>
    ensures { IfOk result (λ specs. AreSpecs plan.now specs.items) }
{
    let under = marked_nodes(alloc, plan)?;
    let specs = specs_under(alloc, plan, under.as_slice())?;
    Ok(specs)
}
