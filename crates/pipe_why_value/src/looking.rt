//! The walk through a value that should spell a job, or what another command reads, in the order of its text: the first
//! place at which something else stands than may, and how many further ones there are.

ghost use Rattle.std.specs.Prelude.{◌≡◌, ◌<◌, ◌≤◌, ℕ, Some, None, true, false, is_some, length, OnOk, IsSome};
ghost use Rattle.json.specs.Json.{Json as Written};
ghost use Rattle.serde_json.specs.Data.{Data, object};
ghost use Rattle.serde_json.specs.Find.{as_array, get};
ghost use Rattle.pipe_value.specs.Items.{elements};
ghost use Rattle.pipe_value.specs.View.{members_view, view};
ghost use Rattle.pipe_why_text.specs.declared.steps.Step.TheVariants as step;
ghost use Rattle.pipe_job.specs.Shape.{is_object, is_single};
ghost use Rattle.pipe_why_text.specs.Members.{is_edit, item_wanted, members_in, members_of, type_of, want_in};
ghost use Rattle.pipe_why_text.specs.Wanted.{SpellsJob};
ghost use Rattle.pipe_why_value.specs.Places.{AreGoodBefore, AreGoodParts, IsGood, IsGoodItem, IsGoodPart, Passes};
ghost use Rattle.pipe_why_value.specs.Order.{IsWritten, tree_part, written};
ghost use Rattle.pipe_why_value.specs.Walks.{IsWantBy, Looked, Within};

use crate::edits::look_at_edit;
use crate::order::{Last, item_tree, last_at, last_members, member_tree, name_at, written_members};
use crate::table::look_at_table;
use crate::walk::{Walk, type_in, word_in};
use crate::wrong::Wrong;
use json::Value as Json;
use pipe_schema::DataType;
use pipe_value::Value;
use pipe_why_text::{Foreign, Member, Want, couple_wants, form, item_want, members_of};
use std::alloc::AllocError;
use std::collections::BTreeMap;

/// What is wanted of a member of an object.
#[derive(Clone, Copy)]
enum MemberWant {
    Is(Want),
    /// The cells of a column.
    Cells(DataType),
    /// Nothing, since the type isn't told.
    Untold,
    /// No such member may be there.
    Unknown,
}

/// What is wanted of a member that is told so, beside the type that its object tells.
fn want_beside(want: Want, dtype: Option<DataType>) -> MemberWant
    ensures { IsWantBy (Some want) dtype result }
{
    match (want, dtype) {
        (Want::Cells(_), Some(dtype)) => MemberWant::Cells(dtype),
        (Want::Cell(_), Some(dtype)) => MemberWant::Is(Want::Cell(dtype)),
        (Want::Cells(_), None) => MemberWant::Untold,
        (Want::Cell(_), None) => MemberWant::Untold,
        _ => MemberWant::Is(want),
    }
}

/// What is wanted of a member of an object that may have these.
fn member_want(known: &[Member], name: &str, parent: &Value) -> MemberWant
    ensures { IsWantBy (want_in (members_in known.now) name.now)
        (type_of (view parent.now)) result }
{
    for (member, want) in known {
        if name == *member {
            return want_beside(*want, type_in(parent));
        }
    }
    MemberWant::Unknown
}

/// Whether an edit is wanted.
fn is_edit(want: Want) -> bool
    ensures no { result ≡ false → is_edit want ≡ false }
    ensures yes { result ≡ true → want ≡ Want.Foreign Foreign.Edit }
{
    match want {
        Want::Foreign(Foreign::Edit) => true,
        _ => false,
    }
}

/// Whether two frames are wanted.
fn are_frames(want: Want) -> bool
    ensures { result ≡ true → want ≡ Want.Foreign Foreign.TwoFrames }
{
    match want {
        Want::Foreign(Foreign::TwoFrames) => true,
        _ => false,
    }
}

/// Looks at a value, and first at its parts.
#[cycle(walk)]
pub(crate) fn look_at(
    walk: &mut Walk,
    want: Want,
    value: &Value,
    tree: Option<&Json<'_>>,
) -> Result<(), AllocError>
    requires written { IsWritten (written tree) (view value.now) }
    ensures looked { OnOk result (Looked (want, view value.now, written tree.entry) walk.old walk.new) }
    ensures good { OnOk result
        (walk.new.first ≡ None → IsGood (want, view value.now, written tree.entry)) }
    ensures job { OnOk result
        (walk.new.first ≡ None → want ≡ Want.Job → SpellsJob (view value.now)) }
{
    let before = walk.found;
    parts(walk, want, value, tree)?;
    if walk.found != before && walk.first.is_some() {
        return Ok(());
    }
    walk.judge(want, value)
}

/// Looks at the parts of a value.
#[cycle(walk)]
fn parts(
    walk: &mut Walk,
    want: Want,
    value: &Value,
    tree: Option<&Json<'_>>,
) -> Result<(), AllocError>
    requires written { IsWritten (written tree) (view value.now) }
    ensures looked { OnOk result (Looked (want, view value.now, written tree.entry) walk.old walk.new) }
    ensures good { OnOk result
        (walk.new.first ≡ None → AreGoodParts (want, view value.now, written tree.entry)) }
{
    match value {
        Value::Object(members) => object(walk, want, value, members, tree),
        Value::Array(_) | Value::Packed(..) => array(walk, want, value, tree),
        Value::Null | Value::Bool(_) | Value::Number(_) | Value::String(_) => Ok(()),
    }
}

/// The members that an object may have, and has to have.
fn known_members(want: Want, value: &Value) -> &'static [Member]
    ensures { members_in result.now ≡ members_of want (view value.now) }
{
    members_of(want, word_in(value, "node"))
}

/// Looks at the members of an object.
#[cycle(walk)]
fn object(
    walk: &mut Walk,
    want: Want,
    value: &Value,
    members: &BTreeMap<String, Value>,
    tree: Option<&Json<'_>>,
) -> Result<(), AllocError>
    requires written { IsWritten (written tree) (view value.now) }
    requires members { view value.now ≡ object (members_view members.now.entries) }
    ensures looked { OnOk result (Looked (want, view value.now, written tree.entry) walk.old walk.new) }
    ensures good { OnOk result
        (walk.new.first ≡ None → AreGoodParts (want, view value.now, written tree.entry)) }
{
    match want {
        Want::Expr => expr(walk, value, members, tree),
        _ => known_object(walk, want, value, tree),
    }
}

/// Looks at the members of an object that isn't an expression.
#[cycle(walk)]
fn known_object(
    walk: &mut Walk,
    want: Want,
    value: &Value,
    tree: Option<&Json<'_>>,
) -> Result<(), AllocError>
    requires written { IsWritten (written tree) (view value.now) }
    requires object { is_object (view value.now) ≡ true }
    ensures looked { OnOk result (Looked (want, view value.now, written tree.entry) walk.old walk.new) }
    ensures good { OnOk result
        (walk.new.first ≡ None → AreGoodParts (want, view value.now, written tree.entry)) }
{
    let before = walk.found;
    members(walk, known_members(want, value), value, tree)?;
    match want {
        Want::Frame if walk.found == before => look_at_table(walk, value),
        _ => Ok(()),
    }
}

/// Looks at the members of an object, which may have these, and has to have each.
#[cycle(walk)]
fn members(
    walk: &mut Walk,
    known: &'static [Member],
    value: &Value,
    tree: Option<&Json<'_>>,
) -> Result<(), AllocError>
    requires written { IsWritten (written tree) (view value.now) }
    requires object { is_object (view value.now) ≡ true }
    ensures looked { OnOk result ((w : Want) → members_in known.now ≡ members_of w (view value.now)
        → Looked (w, view value.now, written tree.entry) walk.old walk.new) }
    ensures good { OnOk result ((w : Want) → members_in known.now ≡ members_of w (view value.now)
        → walk.new.first ≡ None → AreGoodParts (w, view value.now, written tree.entry)) }
{
    if known.is_empty() {
        return Ok(());
    }
    placed_members(walk, known, value, tree)?;
    walk.missing(known, value)
}

/// Looks at the members of an object in the order of the text.
#[cycle(walk)]
fn placed_members(
    walk: &mut Walk,
    known: &'static [Member],
    value: &Value,
    tree: Option<&Json<'_>>,
) -> Result<(), AllocError>
    requires written { IsWritten (written tree) (view value.now) }
    requires object { is_object (view value.now) ≡ true }
    ensures looked { OnOk result ((w : Want) → members_in known.now ≡ members_of w (view value.now)
        → Looked (w, view value.now, written tree.entry) walk.old walk.new) }
    ensures good { OnOk result ((w : Want) → members_in known.now ≡ members_of w (view value.now)
        → walk.new.first ≡ None → AreGoodParts (w, view value.now, written tree.entry)) }
{
    let Some(object) = tree else {
        return Ok(());
    };
    let members = written_members(object);
    let lasts = last_members(walk.alloc, members)?;
    for i in 0..members.len() {
        let name = name_at(members, i);
        member(walk, known, name, last_at(&lasts, name, i), value, tree)?;
    }
    Ok(())
}

/// Looks at the member of a name of an object, if it is the last one of that name, which counts.
#[cycle(walk)]
fn member(
    walk: &mut Walk,
    known: &'static [Member],
    name: &str,
    last: Option<Last>,
    parent: &Value,
    tree: Option<&Json<'_>>,
) -> Result<(), AllocError>
    requires written { IsWritten (written tree) (view parent.now) }
    ensures looked { OnOk result ((w : Want) → members_in known.now ≡ members_of w (view parent.now)
        → (walk.old.first ≡ None → IsSome last
        → Passes (step.Member name.now) (w, view parent.now, written tree.entry))
        → Looked (w, view parent.now, written tree.entry) walk.old walk.new) }
    ensures good { OnOk result ((w : Want) → members_in known.now ≡ members_of w (view parent.now)
        → IsSome last → walk.new.first ≡ None
        → IsGoodPart (w, view parent.now, written tree.entry) (step.Member name.now)) }
{
    match last {
        Some(last) => last_member(walk, known, name, last, parent, tree),
        None => Ok(()),
    }
}

/// Looks at the last member of a name of an object, where the object has it.
#[cycle(walk)]
fn last_member(
    walk: &mut Walk,
    known: &'static [Member],
    name: &str,
    last: Last,
    parent: &Value,
    tree: Option<&Json<'_>>,
) -> Result<(), AllocError>
    requires written { IsWritten (written tree) (view parent.now) }
    ensures looked { OnOk result ((w : Want) → members_in known.now ≡ members_of w (view parent.now)
        → (walk.old.first ≡ None
        → Passes (step.Member name.now) (w, view parent.now, written tree.entry))
        → Looked (w, view parent.now, written tree.entry) walk.old walk.new) }
    ensures good { OnOk result ((w : Want) → members_in known.now ≡ members_of w (view parent.now)
        → walk.new.first ≡ None
        → IsGoodPart (w, view parent.now, written tree.entry) (step.Member name.now)) }
{
    let Some(value) = parent.get(name) else {
        return Ok(());
    };
    let repeated = walk.enter_member(name, last)?;
    member_value(walk, known, name, parent, value, tree)?;
    walk.leave_member(repeated);
    Ok(())
}

/// Looks at the value of a member of an object.
#[cycle(walk)]
fn member_value(
    walk: &mut Walk,
    known: &'static [Member],
    name: &str,
    parent: &Value,
    value: &Value,
    tree: Option<&Json<'_>>,
) -> Result<(), AllocError>
    requires written { IsWritten (written tree) (view parent.now) }
    requires part { get name.now (view parent.now) ≡ Some (view value.now) }
    ensures looked { OnOk result ((w : Want) → members_in known.now ≡ members_of w (view parent.now)
        → (walk.old.first ≡ None
        → Passes (step.Member name.now) (w, view parent.now, written tree.entry))
        → Within (w, view parent.now, written tree.entry) (step.Member name.now)
        walk.old walk.new) }
    ensures good { OnOk result ((w : Want) → members_in known.now ≡ members_of w (view parent.now)
        → walk.new.first ≡ None
        → IsGoodPart (w, view parent.now, written tree.entry) (step.Member name.now)) }
{
    match member_want(known, name, parent) {
        MemberWant::Cells(dtype) => walk.cells(dtype, parent, value),
        MemberWant::Is(want) => look_at(walk, want, value, member_tree(tree, name)),
        MemberWant::Untold => Ok(()),
        // Where a node's kind isn't told, its members aren't known.
        MemberWant::Unknown => if 1 < known.len() {
            walk.note(Wrong::Unknown(known))
        } else {
            Ok(())
        },
    }
}

/// Looks at the one member of an expression, of a name.
#[cycle(walk)]
fn form_member(
    walk: &mut Walk,
    name: &str,
    value: &Value,
    tree: Option<&Json<'_>>,
) -> Result<(), AllocError>
    requires written { IsWritten (written tree) (view value.now) }
    requires single { is_single (view value.now) ≡ true }
    ensures looked { OnOk result (Looked (Want.Expr, view value.now, written tree.entry) walk.old walk.new) }
    ensures good { OnOk result (walk.new.first ≡ None
        → IsGoodPart (Want.Expr, view value.now, written tree.entry) (step.Member name.now)) }
{
    let Some(inner) = value.get(name) else {
        return Ok(());
    };
    walk.enter(name)?;
    form_value(walk, name, inner, member_tree(tree, name))?;
    walk.leave();
    Ok(())
}

/// Looks at the value of the one member, of a name, of an expression.
#[cycle(walk)]
fn form_value(
    walk: &mut Walk,
    name: &str,
    value: &Value,
    tree: Option<&Json<'_>>,
) -> Result<(), AllocError>
    requires written { IsWritten (written tree) (view value.now) }
    ensures looked { OnOk result ((d : Data) (t : Written) → get name.now d ≡ Some (view value.now)
        → tree_part (step.Member name.now) t ≡ written tree.entry → is_single d ≡ true
        → Within (Want.Expr, d, t) (step.Member name.now) walk.old walk.new) }
    ensures good { OnOk result ((d : Data) (t : Written) → get name.now d ≡ Some (view value.now)
        → tree_part (step.Member name.now) t ≡ written tree.entry → walk.new.first ≡ None
        → IsGoodPart (Want.Expr, d, t) (step.Member name.now)) }
{
    match form(name) {
        Some(want) => look_at(walk, want, value, tree),
        None => walk.note(Wrong::UnknownForm),
    }
}

/// Looks at the one member of an expression.
#[cycle(walk)]
fn expr(
    walk: &mut Walk,
    value: &Value,
    members: &BTreeMap<String, Value>,
    tree: Option<&Json<'_>>,
) -> Result<(), AllocError>
    requires written { IsWritten (written tree) (view value.now) }
    requires members { view value.now ≡ object (members_view members.now.entries) }
    ensures looked { OnOk result (Looked (Want.Expr, view value.now, written tree.entry) walk.old walk.new) }
    ensures good { OnOk result
        (walk.new.first ≡ None → AreGoodParts (Want.Expr, view value.now, written tree.entry)) }
{
    if members.len() != 1 {
        return walk.note(Wrong::Members(members.len()));
    }
    match members.first_key_value() {
        Some((name, _)) => form_member(walk, name.as_str(), value, tree),
        None => Ok(()),
    }
}

/// Looks at the items of an array.
#[cycle(walk)]
fn array(
    walk: &mut Walk,
    want: Want,
    value: &Value,
    tree: Option<&Json<'_>>,
) -> Result<(), AllocError>
    requires written { IsWritten (written tree) (view value.now) }
    requires array { is_some (as_array (view value.now)) ≡ true }
    ensures looked { OnOk result (Looked (want, view value.now, written tree.entry) walk.old walk.new) }
    ensures good { OnOk result
        (walk.new.first ≡ None → AreGoodParts (want, view value.now, written tree.entry)) }
{
    if is_edit(want) {
        look_at_edit(walk, value)
    } else {
        array_items(walk, want, value, tree)
    }
}

/// Looks at the items of an array that isn't an edit.
#[cycle(walk)]
fn array_items(
    walk: &mut Walk,
    want: Want,
    value: &Value,
    tree: Option<&Json<'_>>,
) -> Result<(), AllocError>
    requires written { IsWritten (written tree) (view value.now) }
    requires array { is_some (as_array (view value.now)) ≡ true }
    requires other { is_edit want ≡ false }
    ensures looked { OnOk result (Looked (want, view value.now, written tree.entry) walk.old walk.new) }
    ensures good { OnOk result
        (walk.new.first ≡ None → AreGoodParts (want, view value.now, written tree.entry)) }
{
    let Some(count) = value.array_len()? else {
        return Ok(());
    };
    if let Some((first, second)) = couple_wants(want) {
        if are_frames(want) && count != 2 {
            return walk.note(Wrong::Frames(count));
        }
        return couple(walk, first, second, value, count, tree);
    }
    match item_want(want) {
        Some(item) => items(walk, item, value, count, tree),
        None => Ok(()),
    }
}

/// Looks at the items of an array that should have two, as far as it has them.
#[cycle(walk)]
fn couple(
    walk: &mut Walk,
    first: Want,
    second: Want,
    value: &Value,
    count: usize,
    tree: Option<&Json<'_>>,
) -> Result<(), AllocError>
    requires written { IsWritten (written tree) (view value.now) }
    requires count { count ≡ length (elements (view value.now)) }
    ensures looked { OnOk result ((w : Want) → item_wanted w 0 ≡ Some first
        → item_wanted w 1 ≡ Some second → Looked (w, view value.now, written tree.entry) walk.old walk.new) }
    ensures good { OnOk result ((w : Want) → item_wanted w 0 ≡ Some first
        → item_wanted w 1 ≡ Some second → walk.new.first ≡ None
        → AreGoodBefore (w, view value.now, written tree.entry) 2) }
{
    if count == 0 {
        return Ok(());
    }
    item(walk, first, value, 0, tree)?;
    if count == 1 {
        return Ok(());
    }
    item(walk, second, value, 1, tree)
}

/// Looks at so many items of an array.
#[cycle(walk)]
fn items(
    walk: &mut Walk,
    want: Want,
    value: &Value,
    count: usize,
    tree: Option<&Json<'_>>,
) -> Result<(), AllocError>
    requires written { IsWritten (written tree) (view value.now) }
    requires count { count ≤ length (elements (view value.now)) }
    ensures looked { OnOk result ((w : Want) → ((i : ℕ) → item_wanted w i ≡ Some want)
        → Looked (w, view value.now, written tree.entry) walk.old walk.new) }
    ensures good { OnOk result ((w : Want) → ((i : ℕ) → item_wanted w i ≡ Some want)
        → walk.new.first ≡ None → AreGoodBefore (w, view value.now, written tree.entry) count) }
{
    for i in 0..count {
        item(walk, want, value, i, tree)?;
    }
    Ok(())
}

/// Looks at an item of an array.
#[cycle(walk)]
fn item(
    walk: &mut Walk,
    want: Want,
    value: &Value,
    i: usize,
    tree: Option<&Json<'_>>,
) -> Result<(), AllocError>
    requires written { IsWritten (written tree) (view value.now) }
    requires place { i < length (elements (view value.now)) }
    ensures looked { OnOk result ((w : Want) → item_wanted w i ≡ Some want
        → (walk.old.first ≡ None → AreGoodBefore (w, view value.now, written tree.entry) i)
        → Looked (w, view value.now, written tree.entry) walk.old walk.new) }
    ensures good { OnOk result ((w : Want) → item_wanted w i ≡ Some want
        → walk.new.first ≡ None → IsGoodItem (w, view value.now, written tree.entry) i) }
{
    let found = value.item(walk.alloc, i)?;
    walk.enter_item(i)?;
    look_at(walk, want, found.value(), item_tree(tree, i))?;
    walk.leave();
    Ok(())
}
