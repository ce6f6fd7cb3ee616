//! What is done at a node of a plan while it is cut.

ghost use Rattle.std.specs.Prelude.{◌≡◌, map};
ghost use Rattle.std.specs.List.{list_all};
ghost use Rattle.pipe_plan.specs.Node.{node_of};
ghost use Rattle.pipe_plan.specs.Under.{inputs_of};
ghost use Rattle.pipe_driver.specs.Branches.{is_scan, is_scan_at};
ghost use Rattle.pipe_driver.specs.Climbing.{join_turn, turn_at};
ghost use Rattle.pipe_driver.specs.declared.turn.Turn.TheVariants as turn;

use pipe_plan::{IR, JoinOptions, swap_join_order};

/// What is done at a node.
#[derive(Clone, Copy, Debug)]
pub(crate) enum Turn {
    /// A path begins.
    Begin,
    /// The paths of the input go through the node.
    Through(u32),
    /// The paths of the inputs go through the node, or one begins, where the inputs are scans.
    Unite,
    /// The paths of the input come to a sort.
    Sort(u32),
    /// The paths of one input end in the node, and those of the other go through it.
    Join { built: u32, probed: u32 },
}

/// What is done at a join: the right side is built where the order of its sides is swapped.
fn turn_at_join(left: u32, right: u32, options: &JoinOptions) -> Turn
    ensures { result ≡ join_turn left right options.now }
{
    if swap_join_order(options) {
        Turn::Join {
            built: right,
            probed: left,
        }
    } else {
        Turn::Join {
            built: left,
            probed: right,
        }
    }
}

/// What is done at a node.
pub(crate) fn turn_at_node(node: &IR) -> Turn
    ensures { result ≡ turn_at (node_of node.now) }
{
    match node {
        IR::DataFrameScan { .. } => Turn::Begin,
        IR::Filter { input, .. } => Turn::Through(*input),
        IR::SimpleProjection { input, .. } => Turn::Through(*input),
        IR::Select { input, .. } => Turn::Through(*input),
        IR::HStack { input, .. } => Turn::Through(*input),
        IR::MapFunction { input, .. } => Turn::Through(*input),
        IR::Union { .. } => Turn::Unite,
        IR::Join {
            left,
            right,
            options,
            ..
        } => turn_at_join(*left, *right, options),
        IR::Sort { input, .. } => Turn::Sort(*input),
    }
}

/// The inputs of a union.
pub(crate) fn union_inputs(node: &IR) -> &[u32]
    requires { turn_at (node_of node.now) ≡ turn.Unite }
    ensures { result.now ≡ inputs_of (node_of node.now) }
{
    match node {
        IR::Union { inputs } => inputs.as_slice(),
        IR::DataFrameScan { .. }
        | IR::Filter { .. }
        | IR::SimpleProjection { .. }
        | IR::Select { .. }
        | IR::HStack { .. }
        | IR::MapFunction { .. }
        | IR::Join { .. }
        | IR::Sort { .. } => unreachable!(),
    }
}

/// Whether a node is a scan.
fn is_node_scan(node: &IR) -> bool
    ensures { result ≡ is_scan (node_of node.now) }
{
    match node {
        IR::DataFrameScan { .. } => true,
        IR::Filter { .. } => false,
        IR::SimpleProjection { .. } => false,
        IR::Select { .. } => false,
        IR::HStack { .. } => false,
        IR::MapFunction { .. } => false,
        IR::Union { .. } => false,
        IR::Join { .. } => false,
        IR::Sort { .. } => false,
    }
}

/// Whether the node of a number is a scan.
fn is_number_of_scan(nodes: &[IR], n: u32) -> bool
    ensures { result ≡ is_scan_at (map node_of nodes.now) n }
{
    match nodes.get(n as usize) {
        Some(node) => is_node_scan(node),
        None => false,
    }
}

/// Whether nodes are scans alone.
pub(crate) fn are_scans(nodes: &[IR], numbers: &[u32]) -> bool
    ensures { result ≡ list_all (is_scan_at (map node_of nodes.now)) numbers.now }
{
    for n in numbers {
        if !is_number_of_scan(nodes, *n) {
            return false;
        }
    }
    true
}
