//! The sinks of a plan.

ghost use Rattle.std.specs.Prelude.{◌≡◌, ℕ, ◌<◌, length, IfOk};
ghost use Rattle.pipe_check.specs.Checking.{is_marked};
ghost use Rattle.pipe_plan.specs.Node.{node_of};
ghost use Rattle.pipe_plan.specs.Under.{is_under};
ghost use Rattle.pipe_convert.specs.Joins.{AreSpecs};
ghost use Rattle.pipe_convert.specs.Nodes.{IsUnder, nodes_in};
ghost use Rattle.pipe_lines.specs.Made.{AreSinks, AreNodeSinks, IsNodeSink, own_sink};

use crate::sink::get_sink;
use pipe_check::CheckedPlan;
use pipe_convert::{marked_nodes, node_count, numbered};
use pipe_driver::SinkAt;
use pipe_plan::IR;
use pipe_rows::KeyHasher;
use pipe_slots::PhysSink;
use pipe_table::JoinSpec;
use std::alloc::{AllocError, Global};
use std::sync::Arc;

/// The place of a node's own sink: of a sort that of its rows, of a join that of the side that is built.
fn node_place(node: &IR, n: u32) -> Option<SinkAt>
    ensures { result ≡ own_sink (node_of node.now) n }
{
    match node {
        IR::Sort { .. } => Some(SinkAt::Sort(n)),
        IR::Join { .. } => Some(SinkAt::Build(n)),
        IR::DataFrameScan { .. }
        | IR::Filter { .. }
        | IR::SimpleProjection { .. }
        | IR::Select { .. }
        | IR::HStack { .. }
        | IR::MapFunction { .. }
        | IR::Union { .. } => None,
    }
}

/// The sink of a node, where it is a sort or a join.
fn node_sink<H: KeyHasher>(
    alloc: Global,
    plan: &CheckedPlan,
    specs: &[Option<Arc<JoinSpec>>],
    n: u32,
    parts: u32,
    hasher: H,
) -> Result<Option<PhysSink<H>>, AllocError>
    requires under { IsUnder plan.now n }
    requires specs { AreSpecs plan.now specs.now }
    requires parts { 0 < parts }
    ensures { IfOk result (IsNodeSink plan.now specs.now hasher parts n) }
{
    plan.known_well_formed();
    let Some(at) = node_place(numbered(plan, n), n) else {
        return Ok(None);
    };
    let sink = get_sink(alloc, plan, specs, at, parts, hasher)?;
    Ok(Some(sink))
}

/// The sink of a node that is under the root, where it has one; none of any other node.
fn sink_under<H: KeyHasher>(
    alloc: Global,
    plan: &CheckedPlan,
    specs: &[Option<Arc<JoinSpec>>],
    n: u32,
    under: bool,
    parts: u32,
    hasher: H,
) -> Result<Option<PhysSink<H>>, AllocError>
    requires under { is_under (nodes_in plan.now) plan.now.root n ≡ under }
    requires specs { AreSpecs plan.now specs.now }
    requires parts { 0 < parts }
    ensures { IfOk result (IsNodeSink plan.now specs.now hasher parts n) }
{
    if under {
        node_sink(alloc, plan, specs, n, parts, hasher)
    } else {
        Ok(None)
    }
}

/// The sinks of the sorts and joins among the nodes under the root, by their numbers.
fn sinks_under<H: KeyHasher>(
    alloc: Global,
    plan: &CheckedPlan,
    under: &[bool],
    specs: &[Option<Arc<JoinSpec>>],
    parts: u32,
    hasher: H,
) -> Result<Vec<Option<PhysSink<H>>>, AllocError>
    requires marks { (n : ℕ) → is_marked under.now n ≡ is_under (nodes_in plan.now) plan.now.root n }
    requires sized { length under.now ≡ length (nodes_in plan.now) }
    requires specs { AreSpecs plan.now specs.now }
    requires parts { 0 < parts }
    ensures { IfOk result (λ sinks. AreNodeSinks plan.now specs.now hasher parts sinks.items) }
{
    let nodes = node_count(plan);
    let mut sinks = Vec::new(alloc);
    for n in 0..nodes {
        let marked = under[n as usize];
        sinks.push(sink_under(alloc, plan, specs, n, marked, parts, hasher)?)?;
    }
    Ok(sinks)
}

/// The sinks of a plan: by the nodes of its sorts and joins, and that of the root last.
pub fn plan_sinks<H: KeyHasher>(
    alloc: Global,
    plan: &CheckedPlan,
    specs: &[Option<Arc<JoinSpec>>],
    parts: u32,
    hasher: H,
) -> Result<Vec<Option<PhysSink<H>>>, AllocError>
    requires specs { AreSpecs plan.now specs.now }
    requires parts { 0 < parts }
    ensures { IfOk result (λ sinks. AreSinks plan.now specs.now hasher parts sinks.items) }
{
    plan.known_well_formed();
    let under = marked_nodes(alloc, plan)?;
    let mut sinks = sinks_under(alloc, plan, under.as_slice(), specs, parts, hasher)?;
    let last = get_sink(alloc, plan, specs, SinkAt::Ordered, parts, hasher)?;
    sinks.push(Some(last))?;
    Ok(sinks)
}
