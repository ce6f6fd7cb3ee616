//! Nodes of plans without renamings, narrowed: what they become rests on no names of the nodes below them.

ghost use Rattle.std.specs.Prelude.{◌≡◌, ◌≤◌, false, map, length, IfOk};
ghost use Rattle.std.specs.List.{list_any};
ghost use Rattle.pipe_plan.specs.Node.{node_of};
ghost use Rattle.pipe_plan.specs.Faults.{most_nodes};
ghost use Rattle.pipe_optimize.specs.Narrow.{AreNarrowed, renames, is_renaming as renames_columns};
ghost use Rattle.pipe_optimize.specs.Put.{needs_in};
ghost use Rattle.pipe_optimize.specs.Whole.{needs_over};

use crate::all_needed::needed_at;
use crate::name_lists::NameLists;
use crate::narrowing::narrow;
use pipe_expr::FunctionIR;
use pipe_frame::DataFrame;
use pipe_plan::IR;
use pipe_schema::{List, Text};
use std::alloc::{AllocError, Global};

/// Whether a function is a renaming.
pub(crate) fn is_rename(function: &FunctionIR) -> bool
    ensures { result ≡ renames function.now }
{
    match function {
        FunctionIR::Unpivot { .. } => false,
        FunctionIR::Rename { .. } => true,
    }
}

/// Whether a node is a renaming.
fn is_renaming(node: &IR) -> bool
    ensures { result ≡ renames_columns (node_of node.now) }
{
    match node {
        IR::MapFunction { function, .. } => is_rename(function),
        IR::DataFrameScan { .. }
        | IR::Filter { .. }
        | IR::SimpleProjection { .. }
        | IR::Select { .. }
        | IR::HStack { .. }
        | IR::Union { .. }
        | IR::Join { .. }
        | IR::Sort { .. } => false,
    }
}

/// Whether one of some nodes is a renaming.
pub(crate) fn has_renaming(nodes: &[IR]) -> bool
    ensures { result ≡ list_any renames_columns (map node_of nodes.now) }
{
    for node in nodes {
        if is_renaming(node) {
            return true;
        }
    }
    false
}

/// The nodes, of which none is a renaming, each narrowed to what is needed of it. No names of outputs are worked out.
pub(crate) fn narrow_unrenamed(
    alloc: Global,
    frames: &[DataFrame],
    lists: &NameLists,
    nodes: List<IR>,
    needs: &[Option<List<Text>>],
) -> Result<List<IR>, AllocError>
    requires unrenamed { list_any renames_columns (map node_of nodes) ≡ false }
    requires few { length nodes ≤ most_nodes }
    ensures { IfOk result (λ made. AreNarrowed frames.now (map node_of nodes)
        (map node_of made) (needs_in (needs_over lists.now needs.now))) }
{
    let none = NameLists::new(alloc);
    let mut made = List::new(alloc);
    for node in nodes.into_vec() {
        let needed = needed_at(lists, needs, made.len() as u32);
        let narrowed = narrow(alloc, frames, &none, needed, node)?;
        made.push(narrowed)?;
    }
    Ok(made)
}
