//! Lists of names, by the numbers of nodes.

ghost use Rattle.std.specs.Prelude.{◌≡◌, take, filter, IfOk};
ghost use Rattle.pipe_schema.specs.Schema.{has_name, names_of};
ghost use Rattle.pipe_optimize.specs.Lists.{names_at as kept_names_at};

use crate::name_lists::NameLists;
use pipe_check::NameIndex;
use pipe_schema::{Field, List, Text, TryClone};
use std::alloc::{AllocError, Global};

/// The names in a place, none where there is none.
pub(crate) fn names_in(lists: &NameLists, place: usize) -> &[Text]
    ensures { result.now ≡ kept_names_at lists.now place }
{
    lists.names(place)
}

/// The names that are kept for a node, none where none are kept.
pub(crate) fn names_at(lists: &NameLists, n: u32) -> &[Text]
    ensures { result.now ≡ kept_names_at lists.now n }
{
    names_in(lists, n as usize)
}

/// Whether a name stands among some names.
#[tactic(auto, using(crate::proofs::NameLists::name_rules))]
pub(crate) fn has(names: &NameIndex<Text>, name: &Text) -> bool
    ensures { result ≡ has_name names.now name.now }
{
    match names.first(name) {
        Some(_) => true,
        None => false,
    }
}

/// Those of some names that stand among others.
fn kept(alloc: Global, names: &[Text], among: &NameIndex<Text>) -> Result<List<Text>, AllocError>
    ensures { IfOk result (λ kept. kept ≡ filter (has_name among.now) names.now) }
{
    let mut kept = List::new(alloc);
    for name in names {
        if has(among, name) {
            kept.push(name.try_clone()?)?;
        }
    }
    Ok(kept)
}

/// How many names are looked through one by one at most; an index of more is made.
pub(crate) const FEW: usize = 4;

/// At most so many names from the front.
pub(crate) fn first_names(names: &[Text], len: usize) -> &[Text]
    ensures { result.now ≡ take len names.now }
{
    if len < names.len() {
        &names[..len]
    } else {
        names
    }
}

/// Whether a name stands among a few.
pub(crate) fn is_among(few: &[Text], name: &Text) -> bool
    ensures { result ≡ has_name few.now name.now }
{
    for one in few {
        if one.is_same(name) {
            return true;
        }
    }
    false
}

/// Those of some names that stand among a few others.
fn kept_of_few(alloc: Global, names: &[Text], few: &[Text]) -> Result<List<Text>, AllocError>
    ensures { IfOk result (λ kept. kept ≡ filter (has_name few.now) names.now) }
{
    let mut kept = List::new(alloc);
    for name in names {
        if is_among(few, name) {
            kept.push(name.try_clone()?)?;
        }
    }
    Ok(kept)
}

/// Those of some names that stand among others, which are looked up.
pub(crate) fn kept_among(
    alloc: Global,
    names: &[Text],
    among: &[Text],
) -> Result<List<Text>, AllocError>
    ensures { IfOk result (λ kept. kept ≡ filter (has_name among.now) names.now) }
{
    if among.len() <= FEW {
        return kept_of_few(alloc, names, among);
    }
    let among = NameIndex::of(alloc, among)?;
    kept(alloc, names, &among)
}

/// Those of some names that stand among those that are kept for a node.
pub(crate) fn shared_names(
    alloc: Global,
    lists: &NameLists,
    n: u32,
    names: &[Text],
) -> Result<List<Text>, AllocError>
    ensures { IfOk result (λ shared.
        shared ≡ filter (has_name (kept_names_at lists.now n)) names.now) }
{
    let mut shared = List::new(alloc);
    for name in names {
        if lists.has(n as usize, name) {
            shared.push(name.try_clone()?)?;
        }
    }
    Ok(shared)
}

/// Copies of some names.
pub(crate) fn copied(alloc: Global, names: &[Text]) -> Result<List<Text>, AllocError>
    ensures { IfOk result (λ copies. copies ≡ names.now) }
{
    let mut copies = Vec::with_capacity(alloc, names.len())?;
    for name in names {
        copies.push(name.try_clone()?)?;
    }
    Ok(List::from_vec(copies))
}

/// The names of some fields.
pub(crate) fn field_names(alloc: Global, fields: &[Field]) -> Result<List<Text>, AllocError>
    ensures { IfOk result (λ names. names ≡ names_of fields.now) }
{
    let mut names = List::new(alloc);
    for field in fields {
        names.push(field.name.try_clone()?)?;
    }
    Ok(names)
}
