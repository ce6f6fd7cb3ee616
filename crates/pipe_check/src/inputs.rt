//! The inputs of a node.

ghost use Rattle.std.specs.Prelude.{◌≡◌, IfOk};
ghost use Rattle.pipe_plan.specs.Node.{node_of};
ghost use Rattle.pipe_plan.specs.Under.{inputs_of};

use pipe_plan::IR;
use std::alloc::{AllocError, Global};

/// The inputs of a node, in the order of its members.
pub(crate) fn inputs(alloc: Global, node: &IR) -> Result<Vec<u32>, AllocError>
    ensures { IfOk result (λ numbers. numbers.items ≡ inputs_of (node_of node.now)) }
{
    match node {
        IR::DataFrameScan { .. } => Ok(Vec::new(alloc)),
        IR::Filter { input, .. } => Ok(vec![in alloc; *input]?),
        IR::SimpleProjection { input, .. } => Ok(vec![in alloc; *input]?),
        IR::Select { input, .. } => Ok(vec![in alloc; *input]?),
        IR::HStack { input, .. } => Ok(vec![in alloc; *input]?),
        IR::MapFunction { input, .. } => Ok(vec![in alloc; *input]?),
        IR::Union { inputs } => Ok(inputs.as_slice().to_vec(alloc)?),
        IR::Join { left, right, .. } => Ok(vec![in alloc; *left, *right]?),
        IR::Sort { input, .. } => Ok(vec![in alloc; *input]?),
    }
}
