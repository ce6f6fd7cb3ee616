//! The fault of a plan: that of the least node under the root that has one, and there the least error.

ghost use Rattle.std.specs.Prelude.{◌≡◌, ◌<◌, ◌^◌, [], length, map, IfOk};
ghost use Rattle.std.specs.List.{range_with_len};
ghost use Rattle.pipe_plan.specs.Node.{node_of};
ghost use Rattle.pipe_plan.specs.Plan.{plan_of};
ghost use Rattle.pipe_plan.specs.Under.{node_at};
ghost use Rattle.pipe_plan.specs.Schemas.{schemas_to};
ghost use Rattle.pipe_plan.specs.Faults.{fault_at, first_fault};
ghost use Rattle.pipe_plan.specs.Faults.{fault_under as fault_of_node_under};
ghost use Rattle.pipe_plan.specs.Faults.{plan_fault as fault_of_plan};
ghost use Rattle.pipe_plain.specs.Nameless.{nameless_fault};
ghost use Rattle.pipe_plain.specs.Tables.{at_place};

use crate::bad_join::is_node_bad_join;
use crate::bad_node::is_bad;
use crate::bad_sort::is_node_bad_sort;
use crate::mismatch::is_node_mistyped;
use crate::names::{duplicate, unknown};
use crate::node_schemas::fields_of_node;
use crate::under::is_below;
use pipe_plan::{Arena, IR, PipeError};
use pipe_schema::{Field, List};
use std::alloc::{AllocError, Global};

/// The least error at a node of those that tell no name, but for `BadNode`.
fn nameless_fault_at(
    alloc: Global,
    schemas: &[List<Field>],
    n: u32,
    node: &IR,
) -> Result<Option<PipeError>, AllocError>
    ensures { let schema = at_place [] schemas.now in
        IfOk result (λ fault. fault ≡ nameless_fault schema n (node_of node.now)) }
{
    let is_bad_join = is_node_bad_join(alloc, node)?;
    let is_bad_sort = is_node_bad_sort(node)?;
    if is_node_mistyped(schemas, node) {
        Ok(Some(PipeError::TypeMismatch(n)))
    } else if is_bad_join {
        Ok(Some(PipeError::BadJoin(n)))
    } else if is_bad_sort {
        Ok(Some(PipeError::BadSort(n)))
    } else {
        Ok(None)
    }
}

/// The least error at a node.
fn node_fault(
    alloc: Global,
    arena: &Arena,
    root: u32,
    schemas: &[List<Field>],
    n: u32,
    node: &IR,
) -> Result<Option<PipeError>, AllocError>
    requires there { node_of node.now ≡ node_at (map node_of arena.now.nodes) n }
    requires below { at_place [] schemas.now ≡ schemas_to (plan_of arena.now) n }
    ensures { IfOk result (λ fault. fault ≡ fault_at (plan_of arena.now) root n) }
{
    let frames = arena.frames.as_slice();
    if is_bad(alloc, arena, root, n, node)? {
        return Ok(Some(PipeError::BadNode(n)));
    }
    if let Some(name) = unknown(alloc, frames, schemas, node)? {
        return Ok(Some(PipeError::UnknownColumn(n, name)));
    }
    if let Some(name) = duplicate(alloc, frames, schemas, node)? {
        return Ok(Some(PipeError::DuplicateName(n, name)));
    }
    Ok(nameless_fault_at(alloc, schemas, n, node)?)
}

/// The fault of a node, where it stands under the root.
fn fault_under(
    alloc: Global,
    arena: &Arena,
    root: u32,
    schemas: &[List<Field>],
    n: u32,
    node: &IR,
) -> Result<Option<PipeError>, AllocError>
    requires there { node_of node.now ≡ node_at (map node_of arena.now.nodes) n }
    requires below { at_place [] schemas.now ≡ schemas_to (plan_of arena.now) n }
    ensures { IfOk result (λ fault. fault ≡ fault_of_node_under (plan_of arena.now) root n) }
{
    if is_below(alloc, arena.nodes.as_slice(), root, n)? {
        Ok(node_fault(alloc, arena, root, schemas, n, node)?)
    } else {
        Ok(None)
    }
}

/// The fault of the least node under the root that has one.
#[tactic(auto, using(crate::proofs::Ranges::range_rules))]
fn least_fault(alloc: Global, arena: &Arena, root: u32) -> Result<Option<PipeError>, AllocError>
    requires { length arena.now.nodes < 2 ^ 32 }
    ensures { let numbers = range_with_len 0 (length arena.now.nodes) in
        IfOk result (λ fault. fault ≡ first_fault (plan_of arena.now) root numbers) }
{
    let mut schemas = List::new(alloc);
    let frames = arena.frames.as_slice();
    let nodes = arena.nodes.as_slice();
    for (n, node) in nodes.iter().enumerate() {
        match fault_under(alloc, arena, root, schemas.as_slice(), n as u32, node)? {
            Some(fault) => return Ok(Some(fault)),
            None => {}
        }
        let made = fields_of_node(alloc, frames, schemas.as_slice(), node)?;
        schemas.push(made)?;
    }
    Ok(None)
}

/// The fault of a plan: `BadNode` of a root outside the arena, else that of the least node under the root that has one.
pub fn plan_fault(alloc: Global, arena: &Arena, root: u32) -> Result<Option<PipeError>, AllocError>
    requires { length arena.now.nodes < 2 ^ 32 }
    ensures { IfOk result (λ fault. fault ≡ fault_of_plan (plan_of arena.now) root) }
{
    if (root as usize) < arena.nodes.len() {
        Ok(least_fault(alloc, arena, root)?)
    } else {
        Ok(Some(PipeError::BadNode(root)))
    }
}
