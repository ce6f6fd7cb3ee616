//! Which column of a frame a column of a node is, where the node has all rows of the frame.

use pipe_expr::{Expr, FunctionIR, NamedExpr, RenamePair};
use pipe_frame::DataFrame;
use pipe_plan::{Arena, IR};
use pipe_schema::{Text, TryClone};
use std::alloc::{AllocError, Global};

/// A node below, and the name of a column there.
#[derive(Clone, Copy)]
struct Origin<'a> {
    node: u32,
    name: &'a Text,
}

/// The column that the last of some expressions of a name is, where it is a plain one.
fn column_named<'a>(exprs: &'a [NamedExpr], name: &Text) -> Option<&'a Text> {
    for expr in exprs {
        if expr.name.is_same(name) {
            return match &expr.expr {
                Expr::Col(column) => Some(column),
                _ => None,
            };
        }
    }
    None
}

/// Whether an expression has a name.
fn is_named(exprs: &[NamedExpr], name: &Text) -> bool {
    for expr in exprs {
        if expr.name.is_same(name) {
            return true;
        }
    }
    false
}

/// The name of a column before a renaming.
fn name_before<'a>(pairs: &'a [RenamePair], name: &'a Text) -> &'a Text {
    for pair in pairs {
        if pair.new_name.is_same(name) {
            return &pair.existing;
        }
    }
    name
}

/// The column of its input that a column of a node is, where the node gives all rows of its input, each once.
fn origin_below<'a>(node: &'a IR, name: &'a Text) -> Option<Origin<'a>> {
    match node {
        IR::SimpleProjection { input, .. } => Some(Origin { node: *input, name }),
        IR::Select { input, exprs } => Some(Origin {
            node: *input,
            name: column_named(exprs.as_slice(), name)?,
        }),
        IR::HStack { input, exprs } => {
            if is_named(exprs.as_slice(), name) {
                let name = column_named(exprs.as_slice(), name)?;
                return Some(Origin { node: *input, name });
            }
            Some(Origin { node: *input, name })
        }
        IR::MapFunction {
            input,
            function: FunctionIR::Rename { pairs },
        } => Some(Origin {
            node: *input,
            name: name_before(pairs.as_slice(), name),
        }),
        IR::Sort { input, options, .. } => if options.slice.is_none() {
            Some(Origin { node: *input, name })
        } else {
            None
        },
        _ => None,
    }
}

/// The node of a number.
fn node_at(arena: &Arena, n: u32) -> Option<&IR> {
    arena.nodes.as_slice().get(n as usize)
}

/// The number of the frame and the name of its column that a column of a node is.
fn frame_column<'a>(arena: &'a Arena, node: u32, name: &'a Text) -> Option<(u32, &'a Text)> {
    let mut at = Origin { node, name };
    for _ in 0..=arena.nodes.len() {
        let node = node_at(arena, at.node)?;
        if let IR::DataFrameScan { frame, .. } = node {
            return Some((*frame, at.name));
        }
        at = origin_below(node, at.name)?;
    }
    None
}

/// A frame, and the names of its columns that are a key.
#[derive(Drop)]
pub(crate) struct KeyColumns<'a> {
    pub(crate) frame: &'a DataFrame,
    pub(crate) names: Vec<Text>,
}

/// The columns of a frame that some keys of a node are, where each is a column and the node has all rows of the frame.
pub(crate) fn key_columns<'a>(
    alloc: Global,
    arena: &'a Arena,
    node: u32,
    keys: &'a [Expr],
) -> Result<Option<KeyColumns<'a>>, AllocError> {
    let mut names = Vec::new(alloc);
    let mut number = None;
    for key in keys {
        let Expr::Col(name) = key else {
            return Ok(None);
        };
        let Some((frame, name)) = frame_column(arena, node, name) else {
            return Ok(None);
        };
        number = Some(frame);
        names.push(name.try_clone()?)?;
    }
    let Some(number) = number else {
        return Ok(None);
    };
    match arena.frames.as_slice().get(number as usize) {
        Some(frame) => Ok(Some(KeyColumns { frame, names })),
        None => Ok(None),
    }
}
