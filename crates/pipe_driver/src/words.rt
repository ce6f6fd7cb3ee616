//! The words of nodes and sinks in the texts of branches.

ghost use Rattle.std.specs.Prelude.{◌≡◌, map, codes};
ghost use Rattle.pipe_plan.specs.Node.{node_of};
ghost use Rattle.pipe_plan.specs.Under.{node_at};
ghost use Rattle.pipe_driver.specs.Texts.{node_word, build_word_of, build_word, sink_word};

use crate::branch::SinkAt;
use pipe_expr::JoinType;
use pipe_plan::IR;

/// The word of a node: of a scan as a source, of the others as operators.
fn word_of_node(node: &IR) -> &'static str
    ensures { result.now ≡ node_word (node_of node.now) }
{
    match node {
        IR::DataFrameScan { .. } => "df",
        IR::Filter { .. } => "filter",
        IR::SimpleProjection { .. } => "fast_projection",
        IR::Select { .. } => "projection",
        IR::HStack { .. } => "hstack",
        IR::MapFunction { .. } => "function",
        IR::Union { .. } => "union",
        IR::Join { .. } => "callback",
        IR::Sort { .. } => "sort",
    }
}

/// The word of the node of a number.
pub(crate) fn word_at(nodes: &[IR], n: u32) -> &'static str
    ensures { result.now ≡ node_word (node_at (map node_of nodes.now) n) }
{
    match nodes.get(n as usize) {
        Some(node) => word_of_node(node),
        None => "union",
    }
}

/// The word of the build sink of a kind of join.
fn word_of_build(how: JoinType) -> &'static str
    ensures { result.now ≡ build_word_of how }
{
    match how {
        JoinType::Cross => "cross_join_sink",
        JoinType::Inner | JoinType::Left | JoinType::Full | JoinType::Semi | JoinType::Anti => {
            "generic_join_build"
        }
    }
}

/// The word of the build sink of a node.
fn word_of_build_at(node: &IR) -> &'static str
    ensures { result.now ≡ build_word (node_of node.now) }
{
    match node {
        IR::Join { options, .. } => word_of_build(options.how),
        IR::DataFrameScan { .. }
        | IR::Filter { .. }
        | IR::SimpleProjection { .. }
        | IR::Select { .. }
        | IR::HStack { .. }
        | IR::MapFunction { .. }
        | IR::Union { .. }
        | IR::Sort { .. } => "generic_join_build",
    }
}

/// The word of the build sink of the node of a number.
fn build_word_at(nodes: &[IR], n: u32) -> &'static str
    ensures { result.now ≡ build_word (node_at (map node_of nodes.now) n) }
{
    match nodes.get(n as usize) {
        Some(node) => word_of_build_at(node),
        None => "generic_join_build",
    }
}

/// The word of a sink.
pub(crate) fn word_of_sink(nodes: &[IR], at: SinkAt) -> &'static str
    ensures { result.now ≡ sink_word (map node_of nodes.now) at }
{
    match at {
        SinkAt::Ordered => "ordered",
        SinkAt::Sort(_node) => "sort",
        SinkAt::Build(node) => build_word_at(nodes, node),
    }
}
