//! Columns that nobody needs, left out of a plan.

ghost use Rattle.std.specs.Prelude.{◌≡◌, ◌<◌, ◌≤◌, ℕ, true, map, length, IfOk, OnOk};
ghost use Rattle.pipe_plan.specs.Node.{node_of};
ghost use Rattle.pipe_plan.specs.Under.{inputs_of};
ghost use Rattle.pipe_plan.specs.Faults.{most_nodes};
ghost use Rattle.pipe_rules.specs.Placed.{is_input};
ghost use Rattle.pipe_optimize.specs.Lists.{names_at as kept_names_at, AreOrdered, HasNames};
ghost use Rattle.pipe_optimize.specs.Sides.{need_by};
ghost use Rattle.pipe_optimize.specs.Put.{HasPut, ArePassed, AreTree, needs_in, IsTrimOf};
ghost use Rattle.pipe_optimize.specs.Narrow.{AreNarrowed};
ghost use Rattle.pipe_optimize.specs.Whole.{need_or, needs_over, AreAllOf, AreOutputs};

use crate::all_needed::{need_of_input, needed_at, put_need, take_need, whole_needs};
use crate::name_lists::NameLists;
use crate::names::names_in;
use crate::narrowing::narrow;
use crate::outputs::push_names;
use crate::unrenamed::{has_renaming, narrow_unrenamed};
use pipe_frame::DataFrame;
use pipe_plan::IR;
use pipe_rules::inputs;
use pipe_schema::{List, Text};
use std::alloc::{AllocError, Global};

/// The names of the outputs of some nodes.
fn node_names(alloc: Global, frames: &[DataFrame], nodes: &[IR]) -> Result<NameLists, AllocError>
    requires { AreOrdered (map node_of nodes.now) }
    ensures { IfOk result (HasNames frames.now (map node_of nodes.now)) }
{
    let mut lists = NameLists::new(alloc);
    for node in nodes {
        push_names(alloc, frames, &mut lists, node)?;
    }
    Ok(lists)
}

/// Puts what a node needs of its inputs, where some names of its own are needed, which may be all.
fn put_needs(
    alloc: Global,
    lists: &NameLists,
    node: &IR,
    whole: bool,
    needed: &[Text],
    needs: &mut [Option<List<Text>>],
) -> Result<(), AllocError>
    requires whole { AreAllOf whole lists.now (node_of node.now) needed.now }
    requires there { (i : ℕ) → is_input (node_of node.now) i ≡ true → i < length needs.old }
    ensures put { OnOk result (HasPut
        (need_by (kept_names_at lists.now) (node_of node.now) needed.now)
        (inputs_of (node_of node.now)) (needs_over lists.now needs.old)
        (needs_over lists.now needs.new)) }
    ensures long { OnOk result (length needs.new ≡ length needs.old) }
{
    let numbers = inputs(alloc, node)?;
    for input in numbers.as_slice() {
        let need = need_of_input(alloc, lists, node, whole, needed, *input)?;
        put_need(needs, *input as usize, need);
    }
    Ok(())
}

/// Puts what a node needs of its inputs, where all names of its own are needed, or those that are kept for it.
fn hand_down(
    alloc: Global,
    lists: &NameLists,
    names: &[Text],
    node: &IR,
    need: &Option<List<Text>>,
    needs: &mut [Option<List<Text>>],
) -> Result<(), AllocError>
    requires whole { AreAllOf true lists.now (node_of node.now) names.now }
    requires there { (i : ℕ) → is_input (node_of node.now) i ≡ true → i < length needs.old }
    ensures put { OnOk result (HasPut
        (need_by (kept_names_at lists.now) (node_of node.now) (need_or names.now need.now))
        (inputs_of (node_of node.now)) (needs_over lists.now needs.old)
        (needs_over lists.now needs.new)) }
    ensures long { OnOk result (length needs.new ≡ length needs.old) }
{
    match need {
        None => put_needs(alloc, lists, node, true, names, needs),
        Some(some) => put_needs(alloc, lists, node, false, some.as_slice(), needs),
    }
}

/// Hands down what is needed, from the last node to the first.
fn pass_needs(
    alloc: Global,
    lists: &NameLists,
    nodes: &[IR],
    root: u32,
    needs: &mut [Option<List<Text>>],
) -> Result<(), AllocError>
    requires tree { AreTree (map node_of nodes.now) root }
    requires outputs { AreOutputs lists.now (map node_of nodes.now) }
    requires long { length needs.old ≡ length nodes.now }
    requires whole { kept_names_at (needs_over lists.now needs.old) root
        ≡ kept_names_at lists.now root }
    ensures { OnOk result (ArePassed lists.now (map node_of nodes.now) root 0
        (needs_over lists.now needs.new)) }
{
    let mut n = nodes.len();
    while n > 0 {
        n -= 1;
        let need = take_need(needs, n);
        hand_down(alloc, lists, names_in(lists, n), &nodes[n], &need, needs)?;
        put_need(needs, n, need);
    }
    Ok(())
}

/// The columns that are needed of each node under the root.
fn node_needs(
    alloc: Global,
    lists: &NameLists,
    nodes: &[IR],
    root: u32,
) -> Result<Vec<Option<List<Text>>>, AllocError>
    requires tree { AreTree (map node_of nodes.now) root }
    requires outputs { AreOutputs lists.now (map node_of nodes.now) }
    requires there { root < length nodes.now }
    ensures { IfOk result (λ needs. ArePassed lists.now (map node_of nodes.now) root 0
        (needs_over lists.now needs.items)) }
{
    let mut needs = whole_needs(alloc, nodes.len())?;
    pass_needs(alloc, lists, nodes, root, needs.as_mut_slice())?;
    Ok(needs)
}

/// The nodes, each narrowed to what is needed of it, over the names of the outputs of those below it.
fn narrow_over_names(
    alloc: Global,
    frames: &[DataFrame],
    lists: &NameLists,
    nodes: List<IR>,
    needs: &[Option<List<Text>>],
) -> Result<List<IR>, AllocError>
    requires ordered { AreOrdered (map node_of nodes) }
    requires few { length nodes ≤ most_nodes }
    ensures { IfOk result (λ made. AreNarrowed frames.now (map node_of nodes)
        (map node_of made) (needs_in (needs_over lists.now needs.now))) }
{
    let mut left = NameLists::new(alloc);
    let mut made = List::new(alloc);
    for node in nodes.into_vec() {
        let needed = needed_at(lists, needs, made.len() as u32);
        let narrowed = narrow(alloc, frames, &left, needed, node)?;
        push_names(alloc, frames, &mut left, &narrowed)?;
        made.push(narrowed)?;
    }
    Ok(made)
}

/// The nodes, each narrowed to what is needed of it. Only renamings ask for the names of the nodes below them.
fn narrow_nodes(
    alloc: Global,
    frames: &[DataFrame],
    lists: &NameLists,
    nodes: List<IR>,
    needs: &[Option<List<Text>>],
) -> Result<List<IR>, AllocError>
    requires ordered { AreOrdered (map node_of nodes) }
    requires few { length nodes ≤ most_nodes }
    ensures { IfOk result (λ made. AreNarrowed frames.now (map node_of nodes)
        (map node_of made) (needs_in (needs_over lists.now needs.now))) }
{
    if has_renaming(nodes.as_slice()) {
        let made = narrow_over_names(alloc, frames, lists, nodes, needs)?;
        Ok(made)
    } else {
        let made = narrow_unrenamed(alloc, frames, lists, nodes, needs)?;
        Ok(made)
    }
}

/// The nodes of a plan, each narrowed to the columns that are needed of it.
pub(crate) fn trim(
    alloc: Global,
    frames: &[DataFrame],
    nodes: List<IR>,
    root: u32,
) -> Result<List<IR>, AllocError>
    requires tree { AreTree (map node_of nodes) root }
    requires there { root < length nodes }
    requires few { length nodes ≤ most_nodes }
    ensures { IfOk result (λ made.
        IsTrimOf frames.now (map node_of nodes) (map node_of made) root) }
{
    let lists = node_names(alloc, frames, nodes.as_slice())?;
    let needs = node_needs(alloc, &lists, nodes.as_slice(), root)?;
    narrow_nodes(alloc, frames, &lists, nodes, needs.as_slice())
}
