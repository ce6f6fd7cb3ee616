//! The nodes of a pipeline.

ghost use Rattle.std.specs.Prelude.{◌≡◌, map, IfOk};
ghost use Rattle.pipe_plan.specs.Under.{node_at};
ghost use Rattle.pipe_convert.specs.Nodes.{IsUnder, nodes_in};
ghost use Rattle.pipe_convert.specs.Sources.{taken_at};
ghost use Rattle.pipe_lines.specs.Cuts.{place_node};
ghost use Rattle.pipe_lines.specs.Parts.{node_of_sink};

use pipe_check::CheckedPlan;
use pipe_convert::source_nodes;
use pipe_driver::{Branch, SinkAt, SinkNode};
use std::alloc::{AllocError, Global};

/// The plan's nodes in a pipeline: the scan or the union that is its source, the scans whose rows it has, in order (the
/// source itself where it is a scan), that of each operator, and the sort or the join of each sink, none of the root's.
#[derive(Drop)]
pub struct PipeNodes {
    pub source: u32,
    pub scans: Vec<u32>,
    pub operators: Vec<u32>,
    pub sinks: Vec<Option<u32>>,
}

/// The node of a place, where it has one.
fn place_node(at: SinkAt) -> Option<u32>
    ensures { result ≡ place_node at }
{
    match at {
        SinkAt::Ordered => None,
        SinkAt::Sort(node) => Some(node),
        SinkAt::Build(node) => Some(node),
    }
}

/// The nodes of sinks.
fn sink_nodes(alloc: Global, sinks: &[SinkNode]) -> Result<Vec<Option<u32>>, AllocError>
    ensures { IfOk result (λ nodes. nodes.items ≡ map node_of_sink sinks.now) }
{
    let mut nodes = Vec::new(alloc);
    for sink in sinks {
        nodes.push(place_node(sink.at))?;
    }
    Ok(nodes)
}

/// The nodes of a branch.
pub(crate) fn pipe_nodes(
    alloc: Global,
    plan: &CheckedPlan,
    branch: &Branch,
) -> Result<PipeNodes, AllocError>
    requires { IsUnder plan.now branch.now.source }
    ensures source { IfOk result (λ nodes. nodes.source ≡ branch.now.source) }
    ensures scans { IfOk result (λ nodes. nodes.scans.items
        ≡ taken_at (node_at (nodes_in plan.now) branch.now.source) branch.now.source) }
    ensures operators { IfOk result (λ nodes. nodes.operators.items ≡ branch.now.operators) }
    ensures sinks { IfOk result (λ nodes. nodes.sinks.items ≡ map node_of_sink branch.now.sinks) }
{
    let scans = source_nodes(alloc, plan, branch.source)?;
    let operators = branch.operators.as_slice().to_vec(alloc)?;
    let sinks = sink_nodes(alloc, branch.sinks.as_slice())?;
    Ok(PipeNodes {
        source: branch.source,
        scans,
        operators,
        sinks,
    })
}
