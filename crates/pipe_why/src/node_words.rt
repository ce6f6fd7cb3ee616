//! Nodes in words.

use pipe_expr::FunctionIR;
use pipe_plan::{Arena, IR};
use std::alloc::{AllocError, Global};
use std::fmt::Write;

/// The word of a node's kind.
pub(crate) fn kind_word(node: &IR) -> &'static str {
    match node {
        IR::DataFrameScan { .. } => "DataFrameScan",
        IR::Filter { .. } => "Filter",
        IR::SimpleProjection { .. } => "SimpleProjection",
        IR::Select { .. } => "Select",
        IR::HStack { .. } => "HStack",
        IR::MapFunction { function, .. } => match function {
            FunctionIR::Unpivot { .. } => "Unpivot",
            FunctionIR::Rename { .. } => "Rename",
        },
        IR::Union { .. } => "Union",
        IR::Join { .. } => "Join",
        IR::Sort { .. } => "Sort",
    }
}

/// Appends a node's kind.
pub(crate) fn push_kind(out: &mut String, arena: &Arena, n: u32) -> Result<(), AllocError> {
    match arena.nodes.as_slice().get(n as usize) {
        Some(node) => write!(out, ", a {}", kind_word(node)),
        None => Ok(()),
    }
}

/// Appends a node's number and kind.
pub(crate) fn push_node(out: &mut String, arena: &Arena, n: u32) -> Result<(), AllocError> {
    write!(out, "node {n}")?;
    push_kind(out, arena, n)
}

/// The numbers of the nodes that a node reads.
pub(crate) fn numbers_read(alloc: Global, node: &IR) -> Result<Vec<u32>, AllocError> {
    match node {
        IR::DataFrameScan { .. } => Ok(Vec::new(alloc)),
        IR::Filter { input, .. }
        | IR::SimpleProjection { input, .. }
        | IR::Select { input, .. }
        | IR::HStack { input, .. }
        | IR::MapFunction { input, .. }
        | IR::Sort { input, .. } => Ok(vec![in alloc; *input]?),
        IR::Union { inputs } => Ok(inputs.as_slice().to_vec(alloc)?),
        IR::Join { left, right, .. } => Ok(vec![in alloc; *left, *right]?),
    }
}

/// Which nodes are under a root: it, and what each of them reads that is smaller.
pub(crate) fn under(alloc: Global, nodes: &[IR], root: u32) -> Result<Vec<bool>, AllocError> {
    let mut marks = vec![in alloc; false; nodes.len()]?;
    if let Some(mark) = marks.get_mut(root as usize) {
        *mark = true;
    }
    for (n, node) in nodes.iter().enumerate().rev() {
        if marks.as_slice().get(n) != Some(&true) {
            continue;
        }
        for input in numbers_read(alloc, node)? {
            if (input as usize) < n {
                if let Some(mark) = marks.get_mut(input as usize) {
                    *mark = true;
                }
            }
        }
    }
    Ok(marks)
}
