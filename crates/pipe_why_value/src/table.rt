//! The names and the heights of a frame's columns, each of which is a good one.

ghost use Rattle.std.specs.Prelude.{◌≡◌, ◌+◌, ◌<◌, ◌≤◌, None, IfOk, OnOk, length};
ghost use Rattle.json.specs.Json.{Json as Written};
ghost use Rattle.pipe_value.specs.Items.{elements};
ghost use Rattle.pipe_value.specs.View.{view};
ghost use Rattle.pipe_why_value.specs.Places.{AreGoodParts};
ghost use Rattle.pipe_why_value.specs.Walks.{AreNames, Looked};

use crate::walk::{Walk, text_of};
use crate::wrong::Wrong;
use pipe_value::Value;
use pipe_why_text::Want;
use std::alloc::{AllocError, Global};
use std::collections::BTreeMap;

/// How many items a value has.
fn count_of(value: &Value) -> Result<usize, AllocError>
    ensures { IfOk result (λ count. count ≡ length (elements (view value.now))) }
{
    Ok(value.array_len()?.unwrap_or(0))
}

/// How many cells a column has.
fn height_of(column: &Value) -> Result<usize, AllocError> {
    match column.get("values") {
        Some(values) => count_of(values),
        None => Ok(0),
    }
}

/// How many cells the column at a place has.
fn height_at(alloc: Global, columns: &Value, i: usize) -> Result<usize, AllocError>
    requires { i < length (elements (view columns.now)) }
{
    let column = columns.item(alloc, i)?;
    height_of(column.value())
}

/// Whether two cells are the same text, number or truth value.
fn is_same(cell: &Value, other: &Value) -> bool {
    match (cell.as_str(), other.as_str()) {
        (Some(text), Some(other)) => text == other,
        _ => match (cell.as_i64(), other.as_i64()) {
            (Some(number), Some(other)) => number == other,
            _ => false,
        },
    }
}

/// Whether the last of so many cells looks like one too many: it is null, or the cell before it again.
fn has_odd_end(alloc: Global, values: &Value, count: usize) -> Result<bool, AllocError>
    requires { count ≡ length (elements (view values.now)) }
{
    if count == 0 {
        return Ok(false);
    }
    let last = values.item(alloc, count - 1)?;
    if last.value().is_null() {
        return Ok(true);
    }
    if count == 1 {
        return Ok(false);
    }
    let before = values.item(alloc, count - 2)?;
    Ok(is_same(last.value(), before.value()))
}

/// Whether the last cell of the column at a place looks like one too many.
fn ends_oddly(alloc: Global, columns: &Value, i: usize) -> Result<bool, AllocError>
    requires { i < length (elements (view columns.now)) }
{
    let column = columns.item(alloc, i)?;
    match column.value().get("values") {
        Some(values) => has_odd_end(alloc, values, count_of(values)?),
        None => Ok(false),
    }
}

/// How many cells each of two columns should have: as many as the longer one, as if the other lacked some; as many as
/// the shorter one where the longer one's last cell looks like one too many.
fn wanted_of_two(alloc: Global, columns: &Value) -> Result<usize, AllocError>
    requires { 2 ≤ length (elements (view columns.now)) }
{
    let first = height_at(alloc, columns, 0)?;
    let second = height_at(alloc, columns, 1)?;
    let longer = if first < second { 1 } else { 0 };
    if ends_oddly(alloc, columns, longer)? {
        Ok(first.min(second))
    } else {
        Ok(first.max(second))
    }
}

/// How many cells each of three columns or more should have: as many as the first one, or, where the second and the
/// third have as many as each other, as they have.
fn wanted_of_three(alloc: Global, columns: &Value) -> Result<usize, AllocError>
    requires { 3 ≤ length (elements (view columns.now)) }
{
    let first = height_at(alloc, columns, 0)?;
    let second = height_at(alloc, columns, 1)?;
    let third = height_at(alloc, columns, 2)?;
    if second == third {
        Ok(second)
    } else {
        Ok(first)
    }
}

/// How many cells each of so many columns should have.
fn wanted_height(alloc: Global, columns: &Value, count: usize) -> Result<usize, AllocError>
    requires { count ≤ length (elements (view columns.now)) }
{
    if 3 <= count {
        return wanted_of_three(alloc, columns);
    }
    if count == 2 {
        return wanted_of_two(alloc, columns);
    }
    if count == 1 {
        return height_at(alloc, columns, 0);
    }
    Ok(0)
}

/// Looks whether a column has as many cells as it should.
fn look_at_height(
    walk: &mut Walk,
    columns: &Value,
    i: usize,
    wanted: usize,
) -> Result<(), AllocError>
    requires { i < length (elements (view columns.now)) }
    ensures { OnOk result ((t : Written) → (walk.old.first ≡ None
        → AreGoodParts (Want.Columns, view columns.now, t))
        → Looked (Want.Columns, view columns.now, t) walk.old walk.new) }
{
    let column = columns.item(walk.alloc, i)?;
    let Some(values) = column.value().get("values") else {
        return Ok(());
    };
    let cells = count_of(values)?;
    if cells == wanted {
        return Ok(());
    }
    walk.note_at(i, "values", Wrong::Height { cells, wanted })
}

/// Looks whether each of so many columns has as many cells as it should.
fn look_at_heights(walk: &mut Walk, columns: &Value, count: usize) -> Result<(), AllocError>
    requires { count ≤ length (elements (view columns.now)) }
    ensures { OnOk result ((t : Written) → (walk.old.first ≡ None
        → AreGoodParts (Want.Columns, view columns.now, t))
        → Looked (Want.Columns, view columns.now, t) walk.old walk.new) }
{
    let wanted = wanted_height(walk.alloc, columns, count)?;
    for i in 0..count {
        look_at_height(walk, columns, i, wanted)?;
    }
    Ok(())
}

/// Looks whether a column has a name that none of these, of earlier columns, is.
fn look_at_name(
    walk: &mut Walk,
    names: &mut BTreeMap<String, usize>,
    columns: &Value,
    i: usize,
) -> Result<(), AllocError>
    requires place { i < length (elements (view columns.now)) }
    requires names { AreNames (view columns.now) i names.old }
    ensures looked { OnOk result ((t : Written) → (walk.old.first ≡ None
        → AreGoodParts (Want.Columns, view columns.now, t))
        → Looked (Want.Columns, view columns.now, t) walk.old walk.new) }
    ensures names { OnOk result (AreNames (view columns.now) (i + 1) names.new) }
{
    let alloc = walk.alloc;
    let column = columns.item(alloc, i)?;
    let Some(name) = column.value().get("name") else {
        return Ok(());
    };
    let name = String::from_str(alloc, text_of(name))?;
    match names.insert(name, i)? {
        Some(earlier) => walk.note_at(i, "name", Wrong::SecondName(earlier)),
        None => Ok(()),
    }
}

/// Looks whether each of so many columns has a name that no earlier one has.
fn look_at_names(walk: &mut Walk, columns: &Value, count: usize) -> Result<(), AllocError>
    requires { count ≤ length (elements (view columns.now)) }
    ensures { OnOk result ((t : Written) → (walk.old.first ≡ None
        → AreGoodParts (Want.Columns, view columns.now, t))
        → Looked (Want.Columns, view columns.now, t) walk.old walk.new) }
{
    let mut names = BTreeMap::new(walk.alloc);
    for i in 0..count {
        look_at_name(walk, &mut names, columns, i)?;
    }
    Ok(())
}

/// Looks whether there is a column.
fn look_at_count(walk: &mut Walk, columns: &Value, count: usize) -> Result<(), AllocError>
    requires { count ≡ length (elements (view columns.now)) }
    ensures { OnOk result ((t : Written) → Looked (Want.Columns, view columns.now, t) walk.old walk.new) }
{
    if count == 0 {
        walk.note(Wrong::NoColumns)
    } else {
        Ok(())
    }
}

/// Looks at the columns of a frame, each of which is a good one.
pub(crate) fn look_at_table(walk: &mut Walk, value: &Value) -> Result<(), AllocError>
    ensures { OnOk result ((t : Written) → (walk.old.first ≡ None
        → AreGoodParts (Want.Frame, view value.now, t))
        → Looked (Want.Frame, view value.now, t) walk.old walk.new) }
{
    let Some(columns) = value.get("columns") else {
        return Ok(());
    };
    let Some(count) = columns.array_len()? else {
        return Ok(());
    };
    walk.enter("columns")?;
    look_at_count(walk, columns, count)?;
    look_at_names(walk, columns, count)?;
    look_at_heights(walk, columns, count)?;
    walk.leave();
    Ok(())
}
