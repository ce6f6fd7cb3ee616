//! What is needed of nodes: some names, or all that a node gives, for which no list is made.

ghost use Rattle.std.specs.Prelude.{◌≡◌, ◌<◌, true, None, length, set, replicate, IfOk};
ghost use Rattle.pipe_plan.specs.Node.{node_of};
ghost use Rattle.pipe_rules.specs.Placed.{is_input};
ghost use Rattle.pipe_optimize.specs.Lists.{names_at as kept_names_at};
ghost use Rattle.pipe_optimize.specs.Narrow.{renames};
ghost use Rattle.pipe_optimize.specs.Sides.{need_by};
ghost use Rattle.pipe_optimize.specs.Whole.{need_or, needs_over, need_at, sort_needs_all as needed_by_sort, needs_all as needed_whole, AreAllOf};

use crate::name_lists::NameLists;
use crate::names::names_at;
use crate::needed::input_need;
use crate::outputs::is_pairing;
use crate::unrenamed::is_rename;
use pipe_plan::{IR, SortOptions};
use pipe_schema::{List, Text};
use std::alloc::{AllocError, Global};

/// What is needed of so many nodes, if it is all that each gives.
pub(crate) fn whole_needs(
    alloc: Global,
    count: usize,
) -> Result<Vec<Option<List<Text>>>, AllocError>
    ensures { IfOk result (λ needs. needs.items ≡ replicate count None) }
{
    let mut needs = Vec::new(alloc);
    for _ in 0..count {
        needs.push(None)?;
    }
    Ok(needs)
}

/// Takes out what is needed of a node.
pub(crate) fn take_need(needs: &mut [Option<List<Text>>], n: usize) -> Option<List<Text>>
    requires { n < length needs.old }
    ensures taken { result ≡ need_at needs.old n }
    ensures left { needs.new ≡ set needs.old n None }
{
    needs[n].take()
}

/// Puts what is needed of a node.
pub(crate) fn put_need(needs: &mut [Option<List<Text>>], n: usize, need: Option<List<Text>>)
    requires { n < length needs.old }
    ensures { needs.new ≡ set needs.old n need }
{
    needs[n] = need;
}

/// The names that are needed of a node, all that it gives or those that are kept for it.
#[tactic(auto, using(crate::proofs::Whole::over_rules))]
pub(crate) fn needed_at<'a>(
    lists: &'a NameLists,
    needs: &'a [Option<List<Text>>],
    n: u32,
) -> &'a [Text]
    ensures { result.now ≡ kept_names_at (needs_over lists.now needs.now) n }
{
    let place = n as usize;
    if place >= needs.len() {
        return &[];
    }
    match &needs[place] {
        Some(names) => names.as_slice(),
        None => names_at(lists, n),
    }
}

/// Whether a sort needs all of its input, if all is needed of it, or not.
fn sort_needs_all(whole: bool, options: &SortOptions) -> bool
    ensures { result ≡ needed_by_sort whole options.now.slice }
{
    match options.slice {
        None => whole,
        Some(_) => true,
    }
}

/// Whether a node needs all of an input, if all is needed of it, or not.
fn needs_all(whole: bool, node: &IR, input: u32) -> bool
    ensures { result ≡ needed_whole whole (node_of node.now) input }
{
    match node {
        IR::DataFrameScan { .. } | IR::SimpleProjection { .. } | IR::Select { .. } => false,
        IR::Filter { .. } | IR::HStack { .. } => whole,
        IR::MapFunction { function, .. } => whole && is_rename(function),
        IR::Union { .. } => true,
        IR::Join { left, options, .. } => whole && (input == *left || is_pairing(options.how)),
        IR::Sort { options, .. } => sort_needs_all(whole, options),
    }
}

/// What a node needs of an input, where some names of its own are needed, which may be all.
pub(crate) fn need_of_input(
    alloc: Global,
    lists: &NameLists,
    node: &IR,
    whole: bool,
    needed: &[Text],
    input: u32,
) -> Result<Option<List<Text>>, AllocError>
    requires whole { AreAllOf whole lists.now (node_of node.now) needed.now }
    requires read { is_input (node_of node.now) input ≡ true }
    ensures { IfOk result (λ need. need_or (kept_names_at lists.now input) need
        ≡ need_by (kept_names_at lists.now) (node_of node.now) needed.now input) }
{
    if needs_all(whole, node, input) {
        Ok(None)
    } else {
        let need = input_need(alloc, lists, node, needed, input)?;
        Ok(Some(need))
    }
}
