//! The nodes of a checked plan.

ghost use Rattle.std.specs.Prelude.{◌≡◌, ℕ, length, IfOk};
ghost use Rattle.pipe_plan.specs.Node.{node_of};
ghost use Rattle.pipe_plan.specs.Under.{is_under, node_at};
ghost use Rattle.pipe_check.specs.Checking.{is_marked};
ghost use Rattle.pipe_convert.specs.Nodes.{IsUnder, nodes_in};

use pipe_check::{CheckedPlan, nodes_under};
use pipe_plan::IR;
use std::alloc::{AllocError, Global};

/// The node of a number that is under the root.
pub fn numbered<'a>(plan: &CheckedPlan<'a>, n: u32) -> &'a IR
    requires { IsUnder plan.now n }
    ensures { node_of result.now ≡ node_at (nodes_in plan.now) n }
{
    plan.known_well_formed();
    &plan.arena().nodes.as_slice()[n as usize]
}

/// How many nodes a plan has.
pub fn node_count(plan: &CheckedPlan) -> u32
    ensures { result ≡ length (nodes_in plan.now) }
{
    plan.known_well_formed();
    plan.arena().nodes.as_slice().len() as u32
}

/// For each node of a plan, whether it is under the root.
pub fn marked_nodes(alloc: Global, plan: &CheckedPlan) -> Result<Vec<bool>, AllocError>
    ensures under { IfOk result (λ marks. (n : ℕ) → is_marked marks.items n
        ≡ is_under (nodes_in plan.now) plan.now.root n) }
    ensures sized { IfOk result (λ marks. length marks.items ≡ length (nodes_in plan.now)) }
{
    let root = plan.root() as usize;
    let marks = nodes_under(alloc, plan.arena().nodes.as_slice(), root)?;
    Ok(marks)
}
