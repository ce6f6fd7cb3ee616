//! The check of a plan, node by node upwards: the fault of the least node under the root that has one.

ghost use Rattle.std.specs.Prelude.{◌≡◌, ◌<◌, ◌≤◌, ℕ, None, length, false, IfOk, IfErr, OnOk};
ghost use Rattle.pipe_plan.specs.Plan.{plan_of};
ghost use Rattle.pipe_plan.specs.Under.{is_under};
ghost use Rattle.pipe_plan.specs.Faults.{plan_fault, most_nodes};
ghost use Rattle.pipe_check.specs.Checked.{MemoryOr, AreKept};
ghost use Rattle.pipe_check.specs.Checking.{is_marked};

use crate::node_check::checked_schema;
use crate::under::{nodes_under, unmarked};
use pipe_plan::{Arena, PipeError};
use pipe_schema::{List, Schema};
use std::alloc::Global;

/// The schemas of the nodes under the root, or the fault of the least of them that has one.
fn kept_schemas(
    alloc: Global,
    arena: &Arena,
    root: u32,
    under: &[bool],
    read: &mut [bool],
) -> Result<List<Option<Schema>>, PipeError>
    requires few { length arena.now.nodes ≤ most_nodes }
    requires there { root < length arena.now.nodes }
    requires under { let nodes = (plan_of arena.now).nodes in
        (n : ℕ) → is_marked under.now n ≡ is_under nodes root n }
    requires sized { length under.now ≡ length arena.now.nodes }
    requires unread { (n : ℕ) → is_marked read.old n ≡ false }
    requires as_many { length read.old ≡ length arena.now.nodes }
    ensures kept { let many = length arena.now.nodes in
        IfOk result (λ schemas. AreKept (plan_of arena.now) root many schemas) }
    ensures ok { OnOk result (plan_fault (plan_of arena.now) root ≡ None) }
    ensures err { IfErr result (MemoryOr (plan_fault (plan_of arena.now) root)) }
{
    let nodes = arena.nodes.as_slice();
    let frames = arena.frames.as_slice();
    let mut schemas = List::new(alloc);
    for n in 0..nodes.len() {
        let node = &nodes[n];
        let schema = checked_schema(
            alloc,
            frames,
            schemas.as_slice(),
            read,
            under[n],
            n as u32,
            node,
        )?;
        schemas.push(schema)?;
    }
    Ok(schemas)
}

/// The schemas of the nodes under the root, or the plan's fault.
pub(crate) fn checked_schemas(
    alloc: Global,
    arena: &Arena,
    root: u32,
) -> Result<List<Option<Schema>>, PipeError>
    requires few { length arena.now.nodes ≤ most_nodes }
    requires there { root < length arena.now.nodes }
    ensures kept { let many = length arena.now.nodes in
        IfOk result (λ schemas. AreKept (plan_of arena.now) root many schemas) }
    ensures ok { OnOk result (plan_fault (plan_of arena.now) root ≡ None) }
    ensures err { IfErr result (MemoryOr (plan_fault (plan_of arena.now) root)) }
{
    let under = nodes_under(alloc, arena.nodes.as_slice(), root as usize)?;
    let mut read = unmarked(alloc, arena.nodes.len())?;
    kept_schemas(alloc, arena, root, under.as_slice(), read.as_mut_slice())
}
