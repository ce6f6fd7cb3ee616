//! The nodes under a root, found by one pass downwards.

ghost use Rattle.std.specs.Prelude.{◌≡◌, ℕ, ◌<◌, ◌≤◌, ◌||◌, ◌+◌, map, length, replicate, false, OnOk, IfOk};
ghost use Rattle.std.specs.List.{list_any};
ghost use Rattle.pipe_plan.specs.Walk.{walk};
ghost use Rattle.pipe_plan.specs.Node.{node_of};
ghost use Rattle.pipe_plan.specs.Under.{inputs_of, node_at, reaches_at, is_under};
ghost use Rattle.pipe_check.specs.Checking.{is_marked, is_found};

use crate::inputs::inputs;
use pipe_plan::IR;
use std::alloc::{AllocError, Global};

/// Marks those inputs of a node that are smaller than it.
fn mark_inputs(alloc: Global, nodes: &[IR], marks: &mut [bool], n: usize) -> Result<(), AllocError>
    requires there { n < length nodes.now }
    requires sized { length marks.old ≡ length nodes.now }
    ensures { let plan = map node_of nodes.now in
        let inputs = inputs_of (node_at plan n) in
        OnOk result ((m : ℕ) → is_found plan marks.new m n
        ≡ (is_found plan marks.old m n || list_any (walk false (reaches_at plan m) n) inputs)) }
{
    let numbers = inputs(alloc, &nodes[n])?;
    for input in numbers.as_slice() {
        if (*input as usize) < n {
            marks[*input as usize] = true;
        }
    }
    Ok(())
}

/// Marks what is under a marked root.
fn mark_under(
    alloc: Global,
    nodes: &[IR],
    marks: &mut [bool],
    root: usize,
) -> Result<(), AllocError>
    requires there { root < length nodes.now }
    requires sized { length marks.old ≡ length nodes.now }
    ensures { let plan = map node_of nodes.now in
        OnOk result ((m : ℕ) → is_marked marks.new m ≡ is_found plan marks.old m (root + 1)) }
{
    let mut n = root + 1;
    while n > 0 {
        n -= 1;
        if marks[n] {
            mark_inputs(alloc, nodes, marks, n)?;
        }
    }
    Ok(())
}

/// So many nodes, none of which is marked.
pub(crate) fn unmarked(alloc: Global, nodes: usize) -> Result<Vec<bool>, AllocError>
    ensures { IfOk result (λ marks. marks.items ≡ replicate nodes false) }
{
    vec![in alloc; false; nodes]
}

/// For each node, whether it is under the root: by one pass downwards, which looks at each node once.
pub fn nodes_under(alloc: Global, nodes: &[IR], root: usize) -> Result<Vec<bool>, AllocError>
    requires { root < length nodes.now }
    ensures under { let plan = map node_of nodes.now in
        IfOk result (λ marks. (n : ℕ) → is_marked marks.items n ≡ is_under plan root n) }
    ensures sized { IfOk result (λ marks. length marks.items ≡ length nodes.now) }
{
    let mut marks = unmarked(alloc, nodes.len())?;
    marks[root] = true;
    mark_under(alloc, nodes, marks.as_mut_slice(), root)?;
    Ok(marks)
}
