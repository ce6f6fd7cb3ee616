//! The columns that a node needs of its inputs.

ghost use Rattle.std.specs.Prelude.{◌≡◌, true, map, filter, IfOk};
ghost use Rattle.std.specs.List.{AllByRecursion};
ghost use Rattle.pipe_schema.specs.Schema.{has_name};
ghost use Rattle.std.specs.Str.{bytes_eq};
ghost use Rattle.pipe_expr.specs.Formula.{formula_of};
ghost use Rattle.pipe_expr.specs.Projections.{renamed};
ghost use Rattle.pipe_plan.specs.Node.{node_of};
ghost use Rattle.pipe_rules.specs.Needs.{keys_read as read_by_keys};
ghost use Rattle.pipe_optimize.specs.Lists.{names_at as kept_names_at, or_head};
ghost use Rattle.pipe_optimize.specs.Sides.{is_either, is_needed_anew, right_needed, kept_right_of, kept_left_of, kept_sorted_of, kept_function_of, kept_by, need_by};

use crate::name_lists::NameLists;
use crate::names::{FEW, copied, has, is_among, kept_among, names_at, shared_names};
use crate::outputs::{is_kept, is_pairing, push_shown_names, suffixed};
use crate::reads::{columns_of, columns_read, keys_read};
use pipe_check::{NameIndex, plain_names};
use pipe_expr::{Expr, FunctionIR, RenamePair};
use pipe_plan::{IR, JoinOptions, SortOptions};
use pipe_schema::{List, Text, TryClone};
use std::alloc::{AllocError, Global};

/// Whether a name is needed, or read.
fn is_needed_or_read(needed: &NameIndex<Text>, read: &NameIndex<Text>, name: &Text) -> bool
    ensures { result ≡ is_either needed.now read.now name.now }
{
    has(needed, name) || has(read, name)
}

/// Those of some names that are needed, or read.
fn kept_of_either(
    alloc: Global,
    names: &[Text],
    needed: &NameIndex<Text>,
    read: &NameIndex<Text>,
) -> Result<List<Text>, AllocError>
    ensures { IfOk result (λ kept. kept ≡ filter (is_either needed.now read.now) names.now) }
{
    let mut kept = List::new(alloc);
    for name in names {
        if is_needed_or_read(needed, read, name) {
            kept.push(name.try_clone()?)?;
        }
    }
    Ok(kept)
}

/// Whether some names stand at the start of others, and so among them.
fn begins_with(others: &[Text], names: &[Text]) -> bool
    ensures { result ≡ true → AllByRecursion (λ name. has_name others.now name ≡ true) names.now }
{
    if others.len() < names.len() {
        return false;
    }
    for i in 0..names.len() {
        if !others[i].is_same(&names[i]) {
            return false;
        }
    }
    true
}

/// Whether a name stands among a few needed names, or among a few that are read.
fn is_among_either(needed: &[Text], read: &[Text], name: &Text) -> bool
    ensures { result ≡ is_either needed.now read.now name.now }
{
    is_among(needed, name) || is_among(read, name)
}

/// Those of some names that stand among a few needed ones, or among a few that are read.
fn kept_of_few(
    alloc: Global,
    names: &[Text],
    needed: &[Text],
    read: &[Text],
) -> Result<List<Text>, AllocError>
    ensures { IfOk result (λ kept. kept ≡ filter (is_either needed.now read.now) names.now) }
{
    let mut kept = List::new(alloc);
    for name in names {
        if is_among_either(needed, read, name) {
            kept.push(name.try_clone()?)?;
        }
    }
    Ok(kept)
}

/// Those of some names that are needed, or read, by indices where these are many.
fn kept_of_some(
    alloc: Global,
    names: &[Text],
    needed: &[Text],
    read: &[Text],
) -> Result<List<Text>, AllocError>
    ensures { IfOk result (λ kept. kept ≡ filter (is_either needed.now read.now) names.now) }
{
    if needed.len() <= FEW && read.len() <= FEW {
        return kept_of_few(alloc, names, needed, read);
    }
    let needed = NameIndex::of(alloc, needed)?;
    let read = NameIndex::of(alloc, read)?;
    kept_of_either(alloc, names, &needed, &read)
}

/// Those of some names that are needed, or read. Where all are needed, which shows at once, no name is looked up.
#[tactic(auto, using(crate::proofs::Shared::begun_rules))]
fn kept_either(
    alloc: Global,
    names: &[Text],
    needed: &[Text],
    read: &[Text],
) -> Result<List<Text>, AllocError>
    ensures { IfOk result (λ kept. kept ≡ filter (is_either needed.now read.now) names.now) }
{
    if begins_with(needed, names) {
        let kept = copied(alloc, names)?;
        Ok(kept)
    } else {
        let kept = kept_of_some(alloc, names, needed, read)?;
        Ok(kept)
    }
}

/// Whether a column gets a needed name.
#[tactic(auto, using(crate::proofs::NameLists::name_rules))]
fn is_needed_as(needed: &NameIndex<Text>, pairs: &NameIndex<RenamePair>, name: &Text) -> bool
    ensures { result ≡ is_needed_anew needed.now pairs.now name.now }
{
    match pairs.first(name) {
        Some(pair) => has(needed, &pair.new_name),
        None => has(needed, name),
    }
}

/// Whether a column gets this name.
#[tactic(auto, using(crate::proofs::NameLists::name_rules))]
fn is_given(pairs: &NameIndex<RenamePair>, name: &Text, given: &Text) -> bool
    ensures { result ≡ bytes_eq given.now (renamed pairs.now name.now) }
{
    match pairs.first(name) {
        Some(pair) => given.is_same(&pair.new_name),
        None => given.is_same(name),
    }
}

/// Whether the names that some columns get stand at the start of others, and so among them.
fn begins_with_given(others: &[Text], pairs: &NameIndex<RenamePair>, names: &[Text]) -> bool
    ensures { result ≡ true
        → AllByRecursion (λ name. is_needed_anew others.now pairs.now name ≡ true) names.now }
{
    if others.len() < names.len() {
        return false;
    }
    for i in 0..names.len() {
        if !is_given(pairs, &names[i], &others[i]) {
            return false;
        }
    }
    true
}

/// Those of some names that get a needed one, by indices.
fn kept_given(
    alloc: Global,
    names: &[Text],
    needed: &NameIndex<Text>,
    pairs: &NameIndex<RenamePair>,
) -> Result<List<Text>, AllocError>
    ensures { IfOk result (λ kept.
        kept ≡ filter (is_needed_anew needed.now pairs.now) names.now) }
{
    let mut kept = List::new(alloc);
    for name in names {
        if is_needed_as(needed, pairs, name) {
            kept.push(name.try_clone()?)?;
        }
    }
    Ok(kept)
}

/// Those of some names that get a needed one, which is looked up.
fn kept_of_given(
    alloc: Global,
    names: &[Text],
    needed: &[Text],
    pairs: &NameIndex<RenamePair>,
) -> Result<List<Text>, AllocError>
    ensures { IfOk result (λ kept.
        kept ≡ filter (is_needed_anew needed.now pairs.now) names.now) }
{
    let needed = NameIndex::of(alloc, needed)?;
    kept_given(alloc, names, &needed, pairs)
}

/// Those of some names that get a needed one. Where all do, which shows at once, no needed name is looked up.
#[tactic(auto, using(crate::proofs::Shared::given_rules))]
fn kept_renamed(
    alloc: Global,
    names: &[Text],
    needed: &[Text],
    pairs: &NameIndex<RenamePair>,
) -> Result<List<Text>, AllocError>
    ensures { IfOk result (λ kept.
        kept ≡ filter (is_needed_anew needed.now pairs.now) names.now) }
{
    if begins_with_given(needed, pairs, names) {
        let kept = copied(alloc, names)?;
        Ok(kept)
    } else {
        let kept = kept_of_given(alloc, names, needed, pairs)?;
        Ok(kept)
    }
}

/// Whether a right column is needed: shown under a needed name, or read by a key.
fn is_right_needed(
    alloc: Global,
    left: &NameIndex<Text>,
    keys: &NameIndex<Text>,
    read: &NameIndex<Text>,
    needed: &NameIndex<Text>,
    options: &JoinOptions,
    name: &Text,
) -> Result<bool, AllocError>
    ensures { IfOk result (λ is_needed. is_needed
        ≡ right_needed left.now keys.now read.now needed.now options.now name.now) }
{
    if is_pairing(options.how) && is_kept(keys, options, name) {
        let shown = suffixed(alloc, left, &options.suffix, name)?;
        Ok(has(needed, &shown) || has(read, name))
    } else {
        Ok(has(read, name))
    }
}

/// Those of a join's right names that are needed, by indices.
fn kept_of_right(
    alloc: Global,
    left: &NameIndex<Text>,
    keys: &NameIndex<Text>,
    read: &NameIndex<Text>,
    needed: &NameIndex<Text>,
    options: &JoinOptions,
    right: &[Text],
) -> Result<List<Text>, AllocError>
    ensures { IfOk result (λ kept. kept ≡ filter
        (right_needed left.now keys.now read.now needed.now options.now) right.now) }
{
    let mut kept = List::new(alloc);
    for name in right {
        if is_right_needed(alloc, left, keys, read, needed, options, name)? {
            kept.push(name.try_clone()?)?;
        }
    }
    Ok(kept)
}

/// Those of a join's right names that are needed, by its left names and its plain keys. Of the needed names only those
/// count under which a right column is shown.
fn kept_shown(
    alloc: Global,
    left: &NameIndex<Text>,
    keys: &NameIndex<Text>,
    right: &[Text],
    right_on: &[Expr],
    needed: &[Text],
    options: &JoinOptions,
) -> Result<List<Text>, AllocError>
    ensures { let read = read_by_keys (map formula_of right_on.now) in
        IfOk result (λ kept. kept
        ≡ filter (right_needed left.now keys.now read needed.now options.now) right.now) }
{
    let mut shown = List::new(alloc);
    push_shown_names(alloc, &mut shown, left, keys, options, right)?;
    let few = kept_among(alloc, needed, shown.as_slice())?;
    let wanted = NameIndex::of(alloc, few.as_slice())?;
    let columns = keys_read(alloc, right_on)?;
    let read = NameIndex::of(alloc, columns.as_slice())?;
    let kept = kept_of_right(alloc, left, keys, &read, &wanted, options, right)?;
    Ok(kept)
}

/// Those of a join's right names that are needed. Of the left names only those count that a right column has too.
#[tactic(auto, using(crate::proofs::Shared::shared_rules))]
fn kept_right(
    alloc: Global,
    lists: &NameLists,
    left: u32,
    right: &[Text],
    right_on: &[Expr],
    needed: &[Text],
    options: &JoinOptions,
) -> Result<List<Text>, AllocError>
    ensures { let left = kept_names_at lists.now left in IfOk result (λ kept. kept
        ≡ kept_right_of left right.now (map formula_of right_on.now) needed.now options.now) }
{
    let shared = shared_names(alloc, lists, left, right)?;
    let left = NameIndex::of(alloc, shared.as_slice())?;
    let plain = plain_names(alloc, right_on)?;
    let keys = NameIndex::of(alloc, plain.as_slice())?;
    let kept = kept_shown(alloc, &left, &keys, right, right_on, needed, options)?;
    Ok(kept)
}

/// Those of a join's left names that are needed: the needed ones, those that keys read, and those of right columns
/// that are needed, which may get the suffix by them.
fn kept_left(
    alloc: Global,
    left: &[Text],
    left_on: &[Expr],
    needed: &[Text],
    right: List<Text>,
) -> Result<List<Text>, AllocError>
    ensures { IfOk result (λ kept.
        kept ≡ kept_left_of left.now (map formula_of left_on.now) needed.now right) }
{
    let mut read = keys_read(alloc, left_on)?.into_vec();
    let mut right = right.into_vec();
    read.append(&mut right)?;
    kept_either(alloc, left, needed, read.as_slice())
}

/// Those of a join's left names that are needed, over its right names.
fn kept_left_beside(
    alloc: Global,
    lists: &NameLists,
    left: u32,
    right: &[Text],
    left_on: &[Expr],
    right_on: &[Expr],
    needed: &[Text],
    options: &JoinOptions,
) -> Result<List<Text>, AllocError>
    ensures { let names = kept_names_at lists.now left in
        let kept_right = kept_right_of names right.now (map formula_of right_on.now)
        needed.now options.now in IfOk result (λ kept.
        kept ≡ kept_left_of names (map formula_of left_on.now) needed.now kept_right) }
{
    let kept = kept_right(alloc, lists, left, right, right_on, needed, options)?;
    kept_left(alloc, names_at(lists, left), left_on, needed, kept)
}

/// What a sort needs of its input: with a slice all, else what is needed, and its keys.
fn kept_sorted(
    alloc: Global,
    names: &[Text],
    needed: &[Text],
    by: &[Text],
    options: &SortOptions,
) -> Result<List<Text>, AllocError>
    ensures { IfOk result (λ kept.
        kept ≡ kept_sorted_of options.now.slice by.now needed.now names.now) }
{
    match options.slice {
        None => kept_either(alloc, names, needed, by),
        Some(_) => copied(alloc, names),
    }
}

/// What a function needs of its input.
fn kept_function(
    alloc: Global,
    names: &[Text],
    needed: &[Text],
    function: &FunctionIR,
) -> Result<List<Text>, AllocError>
    ensures { IfOk result (λ kept. kept ≡ kept_function_of function.now needed.now names.now) }
{
    match function {
        FunctionIR::Unpivot { on, index, .. } => kept_either(
            alloc,
            names,
            on.as_slice(),
            index.as_slice(),
        ),
        FunctionIR::Rename { pairs } => {
            let pairs = NameIndex::of(alloc, pairs.as_slice())?;
            kept_renamed(alloc, names, needed, &pairs)
        }
    }
}

/// The columns that a node needs of an input, where some of its own are needed.
fn raw_need(
    alloc: Global,
    lists: &NameLists,
    node: &IR,
    needed: &[Text],
    input: u32,
) -> Result<List<Text>, AllocError>
    ensures { IfOk result (λ kept.
        kept ≡ kept_by (kept_names_at lists.now) (node_of node.now) needed.now input) }
{
    let names = names_at(lists, input);
    match node {
        IR::DataFrameScan { .. } => Ok(List::new(alloc)),
        IR::Filter { predicate, .. } => {
            let read = columns_of(alloc, predicate)?;
            kept_either(alloc, names, needed, read.as_slice())
        }
        IR::SimpleProjection { .. } => kept_among(alloc, names, needed),
        IR::Select { exprs, .. } => {
            let read = columns_read(alloc, needed, exprs.as_slice())?;
            kept_among(alloc, names, read.as_slice())
        }
        IR::HStack { exprs, .. } => {
            let read = columns_read(alloc, needed, exprs.as_slice())?;
            kept_either(alloc, names, needed, read.as_slice())
        }
        IR::MapFunction { function, .. } => kept_function(alloc, names, needed, function),
        IR::Union { .. } => copied(alloc, names),
        IR::Join {
            left,
            right,
            left_on,
            right_on,
            options,
        } => {
            let left = *left;
            let right_on = right_on.as_slice();
            if input == left {
                let rights = names_at(lists, *right);
                let left_on = left_on.as_slice();
                kept_left_beside(
                    alloc, lists, left, rights, left_on, right_on, needed, options,
                )
            } else {
                kept_right(alloc, lists, left, names, right_on, needed, options)
            }
        }
        IR::Sort { by, options, .. } => kept_sorted(alloc, names, needed, by.as_slice(), options),
    }
}

/// Some names, or the first of all where there are none.
fn or_first(kept: List<Text>, names: &[Text]) -> Result<List<Text>, AllocError>
    ensures { IfOk result (λ list. list ≡ or_head kept names.now) }
{
    let mut kept = kept;
    if kept.len() == 0 {
        if let Some(name) = names.first() {
            kept.push(name.try_clone()?)?;
        }
    }
    Ok(kept)
}

/// The columns that a node needs of an input, where some of its own are needed; its first where it needs none.
pub(crate) fn input_need(
    alloc: Global,
    lists: &NameLists,
    node: &IR,
    needed: &[Text],
    input: u32,
) -> Result<List<Text>, AllocError>
    ensures { IfOk result (λ kept.
        kept ≡ need_by (kept_names_at lists.now) (node_of node.now) needed.now input) }
{
    let kept = raw_need(alloc, lists, node, needed, input)?;
    or_first(kept, names_at(lists, input))
}
