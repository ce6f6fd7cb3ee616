//! In which order the members of an object stand in its text.

ghost use Rattle.std.specs.Prelude.{◌≡◌, ◌↔◌, ◌+◌, ◌<◌, ℕ, List, [], length, slice_index_or, IfOk, IsSome, OnOk};
ghost use Rattle.json.specs.Value.{value_view};
ghost use Rattle.pipe_why_text.specs.declared.steps.Step.TheVariants as step;
ghost use Rattle.pipe_why_value.specs.Order.{AreLasts, IsLast, names_in, names_of, tree_of, tree_part, written};

use json::{Error, Reader, Scratch, Value as Json};
use std::alloc::{AllocError, Global};
use std::collections::BTreeMap;

/// How deep arrays and objects may nest.
const MAX_DEPTH: usize = 127;

/// How the value of a text is written, null where the text has none.
pub(crate) fn tree_of<'a>(
    alloc: Global,
    text: &'a str,
    scratch: &'a mut Scratch,
) -> Result<Json<'a>, AllocError>
    ensures { IfOk result (λ tree. value_view tree ≡ tree_of text.now) }
{
    let mut reader = Reader::new(text, scratch)?;
    match Json::read(alloc, &mut reader, MAX_DEPTH) {
        Ok(tree) => Ok(tree),
        Err(Error::Invalid) => Ok(Json::Null),
        Err(_) => Err(AllocError),
    }
}

/// How an item of an array is written.
pub(crate) fn item_tree<'t, 'a>(tree: Option<&'t Json<'a>>, i: usize) -> Option<&'t Json<'a>>
    ensures { written result ≡ tree_part (step.Item i) (written tree.entry) }
{
    match tree {
        Some(tree) => tree.at(i),
        None => None,
    }
}

/// How the member of a name is written, the last one of several.
pub(crate) fn member_tree<'t, 'a>(tree: Option<&'t Json<'a>>, name: &str) -> Option<&'t Json<'a>>
    ensures { written result ≡ tree_part (step.Member name.now) (written tree.entry) }
{
    match tree {
        Some(tree) => tree.get(name),
        None => None,
    }
}

/// The members of an object in the order of its text, none of what is no object.
pub(crate) fn written_members<'t, 'a>(tree: &'t Json<'a>) -> &'t [(&'a str, Json<'a>)]
    ensures { names_in result.now ≡ names_of (value_view tree.now) }
{
    match tree {
        Json::Object(members) => members.as_slice(),
        _ => &[],
    }
}

/// The name of a member.
pub(crate) fn name_at<'a>(members: &[(&'a str, Json<'a>)], i: usize) -> &'a str
    requires { i < length members.now }
    ensures { slice_index_or (names_in members.now) i [] ≡ result.now }
{
    members[i].0
}

/// The last member of a name: its place, and whether one of that name stands before it.
#[derive(Clone, Copy)]
pub(crate) struct Last {
    pub(crate) place: usize,
    pub(crate) is_repeated: bool,
}

/// Takes note of a further name.
fn put_name(
    alloc: Global,
    lasts: &mut BTreeMap<String, Last>,
    name: &str,
    place: usize,
) -> Result<(), AllocError>
    ensures { OnOk result ((names : List (List ℕ)) → slice_index_or names place [] ≡ name.now
        → AreLasts names place lasts.old → AreLasts names (place + 1) lasts.new) }
{
    let key = String::from_str(alloc, name)?;
    let is_repeated = lasts.get(name).is_some();
    let _ = lasts.insert(key, Last { place, is_repeated })?;
    Ok(())
}

/// The last member of each name among some members.
pub(crate) fn last_members<'a>(
    alloc: Global,
    members: &[(&'a str, Json<'a>)],
) -> Result<BTreeMap<String, Last>, AllocError>
    ensures { IfOk result (λ lasts. AreLasts (names_in members.now) (length members.now) lasts) }
{
    let mut lasts = BTreeMap::new(alloc);
    for i in 0..members.len() {
        put_name(alloc, &mut lasts, name_at(members, i), i)?;
    }
    Ok(lasts)
}

/// The last member of a name, if it is the one at a place.
pub(crate) fn last_at(lasts: &BTreeMap<String, Last>, name: &str, place: usize) -> Option<Last>
    ensures { (names : List (List ℕ)) → AreLasts names (length names) lasts.now
        → place < length names → slice_index_or names place [] ≡ name.now
        → IsSome result ↔ IsLast names place name.now }
{
    let Some(last) = lasts.get(name) else {
        return None;
    };
    if last.place != place {
        return None;
    }
    Some(*last)
}
