//! What is told of a bad node: an input that can't be read, or a node without what it needs.

use crate::node_words::{numbers_read, push_kind, push_node, under};
use pipe_expr::FunctionIR;
use pipe_plan::{Arena, IR};
use pipe_why_text::push_count;
use std::alloc::{AllocError, Global};
use std::fmt::Write;

/// Appends how many there are of what is numbered from 0.
fn push_numbered(out: &mut String, count: usize, word: &str) -> Result<(), AllocError> {
    if count == 0 {
        return write!(out, "no {word}");
    }
    push_count(out, count, word)?;
    write!(out, ", numbered from 0 to {}", count - 1)
}

/// Appends that a root isn't there.
fn push_no_root(out: &mut String, arena: &Arena, root: u32) -> Result<(), AllocError> {
    out.push_str(
        ", the root: there is no such node\nexpected: root: the number of a node: the plan has ",
    )?;
    push_numbered(out, arena.nodes.len(), "node")?;
    write!(out, "\nfound: {root}\n")
}

/// The least node below a node and under the root that reads an input too.
fn earlier_reader(
    alloc: Global,
    arena: &Arena,
    root: u32,
    n: u32,
    input: u32,
) -> Result<Option<u32>, AllocError> {
    let nodes = arena.nodes.as_slice();
    let marks = under(alloc, nodes, root)?;
    for (m, node) in (0..n).zip(nodes) {
        let is_under = marks.as_slice().get(m as usize) == Some(&true);
        if is_under && numbers_read(alloc, node)?.as_slice().contains(&input) {
            return Ok(Some(m));
        }
    }
    Ok(None)
}

/// Appends what is wrong with an input of a node, if anything is.
fn push_input(
    alloc: Global,
    out: &mut String,
    arena: &Arena,
    root: u32,
    n: u32,
    input: u32,
) -> Result<bool, AllocError> {
    if arena.nodes.len() <= input as usize {
        write!(
            out,
            ": it reads node {input}, which isn't there\nexpected: the number of a smaller node: the plan has "
        )?;
        push_numbered(out, arena.nodes.len(), "node")?;
        write!(out, "\nfound: {input}\n")?;
        return Ok(true);
    }
    if n <= input {
        let which = if n == input { "itself" } else { "a later node" };
        write!(
            out,
            ": it reads node {input}, {which}\nexpected: the number of a node before it, smaller than {n}\nfound: {input}\n"
        )?;
        return Ok(true);
    }
    match earlier_reader(alloc, arena, root, n, input)? {
        Some(reader) => {
            write!(out, ": it reads node {input}, which ")?;
            push_node(out, arena, reader)?;
            out.push_str(", reads already\nexpected: a node that no other node reads\n")?;
            out.push_str(
                "hint: to read its rows again, put the nodes that make them into the plan a second time\n",
            )?;
            Ok(true)
        }
        None => Ok(false),
    }
}

/// Appends the first of a node's inputs with which something is wrong, if any.
fn push_inputs(
    alloc: Global,
    out: &mut String,
    arena: &Arena,
    root: u32,
    n: u32,
    node: &IR,
) -> Result<bool, AllocError> {
    let inputs = numbers_read(alloc, node)?;
    let mut before = Vec::new(alloc);
    for input in inputs.as_slice() {
        if push_input(alloc, out, arena, root, n, *input)? {
            return Ok(true);
        }
        if before.as_slice().contains(input) {
            write!(
                out,
                ": it reads node {input} twice\nexpected: each node is read once\n"
            )?;
            out.push_str(
                "hint: to read its rows again, put the nodes that make them into the plan a second time\n",
            )?;
            return Ok(true);
        }
        before.push(*input)?;
    }
    Ok(false)
}

/// Appends what a node lacks whose inputs are good.
fn push_void(out: &mut String, arena: &Arena, node: &IR) -> Result<(), AllocError> {
    match node {
        IR::DataFrameScan { frame, columns } => {
            if columns.is_some() && (*frame as usize) < arena.frames.len() {
                return out.push_str(
                    ": it names no column\nexpected: columns: null for all columns, or one name or more\nfound: []\n",
                );
            }
            write!(
                out,
                ": there is no frame {frame}\nexpected: frame: the number of a frame: the job has "
            )?;
            push_numbered(out, arena.frames.len(), "frame")?;
            write!(out, "\nfound: {frame}\n")
        }
        IR::SimpleProjection { .. } => out.push_str(
            ": it names no column\nexpected: columns: one name or more\nfound: []\n",
        ),
        IR::Select { .. } => {
            out.push_str(": it has no expression\nexpected: exprs: one or more\nfound: []\n")
        }
        IR::MapFunction { function, .. } => match function {
            FunctionIR::Unpivot { .. } => out.push_str(
                ": it names no column\nexpected: on: one name or more\nfound: []\n",
            ),
            FunctionIR::Rename { .. } => out.push_str("\n"),
        },
        IR::Union { .. } => {
            out.push_str(
                ": it has no input\nexpected: inputs: the numbers of one node or more\nfound: []\n",
            )
        }
        IR::Filter { .. } | IR::HStack { .. } | IR::Join { .. } | IR::Sort { .. } => out.push_str(
            "\n",
        ),
    }
}

/// Appends what is wrong with a bad node, or with a root that isn't there.
pub(crate) fn push_bad_node(
    alloc: Global,
    out: &mut String,
    arena: &Arena,
    root: u32,
    n: u32,
) -> Result<(), AllocError> {
    let Some(node) = arena.nodes.as_slice().get(n as usize) else {
        return push_no_root(out, arena, n);
    };
    push_kind(out, arena, n)?;
    if push_inputs(alloc, out, arena, root, n, node)? {
        return Ok(());
    }
    push_void(out, arena, node)
}
