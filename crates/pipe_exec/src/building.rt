//! Copies of plans by whose hints one side of their joins is built.

ghost use Rattle.std.specs.Prelude.{◌≡◌, map, IfOk};
ghost use Rattle.pipe_plan.specs.Node.{node_of};
ghost use Rattle.pipe_plan.specs.Plan.{plan_of};
ghost use Rattle.pipe_exec.specs.Sides.{node_building, options_building, plan_building, size_hint};

use pipe_frame::DataFrame;
use pipe_plan::{Arena, IR, JoinOptions, RowsHint};
use pipe_schema::{List, TryClone};
use std::alloc::{AllocError, Global};

/// The hint of a side that is thought to have a row more than the other, or not.
fn size_hint(larger: bool) -> RowsHint
    ensures { result ≡ size_hint larger }
{
    RowsHint {
        known: None,
        estimate: u64::from(larger),
    }
}

/// The options of a join, with hints by which its right side is built, or its left one.
fn options_building(options: JoinOptions, right: bool) -> JoinOptions
    ensures { result ≡ options_building right options }
{
    let mut options = options;
    options.rows_left = size_hint(right);
    options.rows_right = size_hint(false);
    options
}

/// A node, with such hints where it is a join.
fn node_building(node: IR, right: bool) -> IR
    ensures { node_of result ≡ node_building right (node_of node) }
{
    match node {
        IR::Join {
            left,
            right: other,
            left_on,
            right_on,
            options,
        } => IR::Join {
            left,
            right: other,
            left_on,
            right_on,
            options: options_building(options, right),
        },
        node => node,
    }
}

/// Copies of nodes, with such hints.
fn nodes_building(alloc: Global, nodes: &[IR], right: bool) -> Result<List<IR>, AllocError>
    ensures { IfOk result (λ made.
        map node_of made ≡ map (node_building right) (map node_of nodes.now)) }
{
    let mut made = List::new(alloc);
    for node in nodes {
        made.push(node_building(node.try_clone(alloc)?, right))?;
    }
    Ok(made)
}

/// Copies of frames, each of which shares its memory with the copies that a run makes.
fn shared_frames(alloc: Global, frames: &[DataFrame]) -> Result<List<DataFrame>, AllocError>
    ensures { IfOk result (λ made. made ≡ frames.now) }
{
    let mut made = List::new(alloc);
    for frame in frames {
        made.push(frame.try_clone()?.shared()?)?;
    }
    Ok(made)
}

/// The same plan but for its hints: by these the right side of its joins is built, or the left one.
pub(crate) fn arena_building(alloc: Global, arena: &Arena, right: bool) -> Result<Arena, AllocError>
    ensures { IfOk result (λ made. plan_of made ≡ plan_building right (plan_of arena.now)) }
{
    let nodes = nodes_building(alloc, arena.nodes.as_slice(), right)?;
    let frames = shared_frames(alloc, arena.frames.as_slice())?;
    Ok(Arena { nodes, frames })
}
