//! Plans built from what is written.

use crate::expr::{expr_of, exprs_of, named_exprs_of};
use crate::join::WrittenJoin;
use crate::node::WrittenNode;
use crate::sort::WrittenSort;
use pipe_expr::{FunctionIR, RenamePair};
use pipe_frame::DataFrame;
use pipe_plan::{Arena, IR};
use pipe_schema::{List, Text};
use std::alloc::{AllocError, Global};
use worked_columns::{WrittenColumn, frame_of, texts};

/// A plan: its nodes and frames, and the node that it gives.
#[derive(Drop)]
pub struct BuiltPlan {
    pub arena: Arena,
    pub root: u32,
}

/// The number of what is added to so many.
fn number_after(len: usize) -> u32 {
    u32::try_from(len).unwrap_or(u32::MAX)
}

fn numbers(alloc: Global, inputs: &[u32]) -> Result<List<u32>, AllocError> {
    let mut made = List::new(alloc);
    for input in inputs {
        made.push(*input)?;
    }
    Ok(made)
}

fn rename_pairs(alloc: Global, names: &[(&str, &str)]) -> Result<List<RenamePair>, AllocError> {
    let mut pairs = List::new(alloc);
    for (existing, new_name) in names {
        let existing = Text::from_str(alloc, existing)?;
        pairs.push(RenamePair {
            existing,
            new_name: Text::from_str(alloc, new_name)?,
        })?;
    }
    Ok(pairs)
}

fn unpivot(alloc: Global, on: &[&str], index: &[&str]) -> Result<FunctionIR, AllocError> {
    let on = texts(alloc, on)?;
    let index = texts(alloc, index)?;
    let variable = Text::from_str(alloc, "variable")?;
    Ok(FunctionIR::Unpivot {
        on,
        index,
        variable,
        value: Text::from_str(alloc, "value")?,
    })
}

fn join(alloc: Global, left: u32, right: u32, join: WrittenJoin) -> Result<IR, AllocError> {
    let left_on = exprs_of(alloc, join.left_on)?;
    let right_on = exprs_of(alloc, join.right_on)?;
    Ok(IR::Join {
        left,
        right,
        left_on,
        right_on,
        options: join.options(alloc)?,
    })
}

fn sort(alloc: Global, input: u32, sort: WrittenSort) -> Result<IR, AllocError> {
    let by = texts(alloc, sort.by)?;
    Ok(IR::Sort {
        input,
        by,
        options: sort.options(alloc)?,
    })
}

/// Adds a frame, and gives its number.
fn add_frame(
    alloc: Global,
    frames: &mut List<DataFrame>,
    columns: &[WrittenColumn],
) -> Result<u32, AllocError> {
    let number = number_after(frames.len());
    if let Some(made) = frame_of(alloc, columns)? {
        frames.push(made)?;
    }
    Ok(number)
}

fn scan(frame: u32, columns: Option<List<Text>>) -> IR {
    IR::DataFrameScan { frame, columns }
}

/// The node that is written so. A scan adds its frame.
fn node_of(
    alloc: Global,
    frames: &mut List<DataFrame>,
    written: WrittenNode,
) -> Result<IR, AllocError> {
    match written {
        WrittenNode::Scan(columns) => Ok(scan(add_frame(alloc, frames, columns)?, None)),
        WrittenNode::ScanOnly(columns, names) => {
            let frame = add_frame(alloc, frames, columns)?;
            Ok(scan(frame, Some(texts(alloc, names)?)))
        }
        WrittenNode::ScanAgain(frame) => Ok(scan(frame, None)),
        WrittenNode::Filter(input, predicate) => Ok(IR::Filter {
            input,
            predicate: expr_of(alloc, predicate)?,
        }),
        WrittenNode::SimpleProjection(input, names) => Ok(IR::SimpleProjection {
            input,
            columns: texts(alloc, names)?,
        }),
        WrittenNode::Select(input, exprs) => Ok(IR::Select {
            input,
            exprs: named_exprs_of(alloc, exprs)?,
        }),
        WrittenNode::HStack(input, exprs) => Ok(IR::HStack {
            input,
            exprs: named_exprs_of(alloc, exprs)?,
        }),
        WrittenNode::Unpivot { input, on, index } => Ok(IR::MapFunction {
            input,
            function: unpivot(alloc, on, index)?,
        }),
        WrittenNode::Rename(input, names) => Ok(IR::MapFunction {
            input,
            function: FunctionIR::Rename {
                pairs: rename_pairs(alloc, names)?,
            },
        }),
        WrittenNode::Union(inputs) => Ok(IR::Union {
            inputs: numbers(alloc, inputs)?,
        }),
        WrittenNode::Join(left, right, written) => join(alloc, left, right, written),
        WrittenNode::Sort(input, written) => sort(alloc, input, written),
    }
}

/// The plan of the nodes that are written so. Its root is the last of them.
pub fn plan_of(alloc: Global, written: &[WrittenNode]) -> Result<BuiltPlan, AllocError> {
    let mut nodes = List::new(alloc);
    let mut frames = List::new(alloc);
    for node in written {
        let made = node_of(alloc, &mut frames, *node)?;
        nodes.push(made)?;
    }
    let root = number_after(nodes.len().saturating_sub(1));
    Ok(BuiltPlan {
        arena: Arena { nodes, frames },
        root,
    })
}
