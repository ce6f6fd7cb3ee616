//! The nodes under a root.

ghost use Rattle.std.specs.Prelude.{◌≡◌, ℕ, [], ◌∷◌, ◌==◌, ◌||◌, length, map, false, IfOk};
ghost use Rattle.std.specs.List.{list_any};
ghost use Rattle.pipe_plan.specs.Node.{node_of};
ghost use Rattle.pipe_plan.specs.Under.{inputs_of, reaches_at, is_under};
ghost use Rattle.pipe_plain.specs.Tables.{table, at_place};

use pipe_plan::IR;
use pipe_schema::{List, TryClone};
use std::alloc::{AllocError, Global};

/// A list of one input.
fn one(alloc: Global, input: u32) -> Result<List<u32>, AllocError>
    ensures { IfOk result (λ inputs. inputs ≡ input ∷ []) }
{
    let mut inputs = List::new(alloc);
    inputs.push(input)?;
    Ok(inputs)
}

/// The inputs of a node, in the order of its members.
pub(crate) fn inputs(alloc: Global, node: &IR) -> Result<List<u32>, AllocError>
    ensures { IfOk result (λ inputs. inputs ≡ inputs_of (node_of node.now)) }
{
    match node {
        IR::DataFrameScan { .. } => Ok(List::new(alloc)),
        IR::Filter { input, .. } => one(alloc, *input),
        IR::SimpleProjection { input, .. } => one(alloc, *input),
        IR::Select { input, .. } => one(alloc, *input),
        IR::HStack { input, .. } => one(alloc, *input),
        IR::MapFunction { input, .. } => one(alloc, *input),
        IR::Union { inputs } => inputs.try_clone(),
        IR::Join { left, right, .. } => {
            let mut inputs = one(alloc, *left)?;
            inputs.push(*right)?;
            Ok(inputs)
        }
        IR::Sort { input, .. } => one(alloc, *input),
    }
}

/// The mark of a node, false where the node isn't there yet.
fn mark(marks: &[bool], n: u32) -> bool
    ensures { result ≡ at_place false marks.now n }
{
    match marks.get(n as usize) {
        Some(mark) => *mark,
        None => false,
    }
}

/// Whether one of some nodes is marked.
fn is_any_marked(marks: &[bool], nodes: &[u32]) -> bool
    ensures { result ≡ list_any (at_place false marks.now) nodes.now }
{
    for n in nodes {
        if mark(marks, *n) {
            return true;
        }
    }
    false
}

/// Whether node n is node k, or one of the inputs of node k is marked.
fn is_reached(k: usize, n: u32, marks: &[bool], inputs: &[u32]) -> bool
    ensures { result ≡ ((k == n) || list_any (at_place false marks.now) inputs.now) }
{
    k == n as usize || is_any_marked(marks, inputs)
}

/// For each node, whether a node is it or stands under it.
fn reaching(alloc: Global, nodes: &[IR], n: u32) -> Result<Vec<bool>, AllocError>
    ensures { let marks_at = reaches_at (map node_of nodes.now) n in
        IfOk result (λ marks. marks.items ≡ table false marks_at (length nodes.now)) }
{
    let mut marks = Vec::new(alloc);
    for (k, node) in nodes.iter().enumerate() {
        let below = inputs(alloc, node)?;
        marks.push(is_reached(k, n, marks.as_slice(), below.as_slice()))?;
    }
    Ok(marks)
}

/// Whether node n is the root or stands under it.
pub fn is_below(alloc: Global, nodes: &[IR], root: u32, n: u32) -> Result<bool, AllocError>
    ensures { IfOk result (λ holds. holds ≡ is_under (map node_of nodes.now) root n) }
{
    let marks = reaching(alloc, nodes, n)?;
    Ok(mark(marks.as_slice(), root))
}
