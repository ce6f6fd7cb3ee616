//! The rows of edits beside the columns of the tables that they edit.

ghost use Rattle.std.specs.Prelude.{◌≡◌, ◌<◌, ◌≤◌, None, Some, true, is_some, IfOk, IfSome, OnOk, length};
ghost use Rattle.json.specs.Json.{Json as Written};
ghost use Rattle.serde_json.specs.Find.{as_array};
ghost use Rattle.pipe_value.specs.Items.{elements};
ghost use Rattle.pipe_value.specs.View.{view};
ghost use Rattle.pipe_why_text.specs.Members.{item_wanted};
ghost use Rattle.pipe_why_value.specs.Places.{AreGoodBefore, AreGoodParts, IsBadPair, IsGood, IsGoodItem};
ghost use Rattle.pipe_why_value.specs.Walks.{Looked};

use crate::walk::{Walk, type_in, word_in};
use crate::wrong::Wrong;
use pipe_schema::DataType;
use pipe_value::Value;
use pipe_why_text::{Foreign, Want, is_cell};
use std::alloc::{AllocError, Global};

/// A column of a table: its name, and its type where that is told.
#[derive(Drop)]
pub(crate) struct Column {
    name: String,
    dtype: Option<DataType>,
}

/// The columns of the two tables that are edited, none of what isn't told.
#[derive(Drop)]
pub(crate) struct Tables {
    left: Vec<Column>,
    right: Vec<Column>,
}

/// The columns of a frame.
fn columns_of(alloc: Global, frame: &Value) -> Result<Vec<Column>, AllocError> {
    let mut columns = Vec::new(alloc);
    let Some(values) = frame.get("columns") else {
        return Ok(columns);
    };
    let Some(count) = values.array_len()? else {
        return Ok(columns);
    };
    for i in 0..count {
        let column = values.item(alloc, i)?;
        let name = String::from_str(alloc, word_in(column.value(), "name"))?;
        let dtype = type_in(column.value());
        columns.push(Column { name, dtype })?;
    }
    Ok(columns)
}

/// The type of the column at a place, where it is told.
fn type_at(columns: &[Column], place: usize) -> Option<DataType> {
    match columns.get(place) {
        Some(column) => column.dtype,
        None => None,
    }
}

/// The name of the column at a place, the empty one where there is none.
fn name_at(alloc: Global, columns: &[Column], place: usize) -> Result<String, AllocError> {
    match columns.get(place) {
        Some(column) => String::from_str(alloc, column.name.as_str()),
        None => Ok(String::new(alloc)),
    }
}

impl Tables {
    /// No columns.
    pub(crate) fn none(alloc: Global) -> Tables {
        Tables {
            left: Vec::new(alloc),
            right: Vec::new(alloc),
        }
    }

    /// The columns of two frames.
    fn of_frames(alloc: Global, frames: &Value) -> Result<Tables, AllocError> {
        let Some(count) = frames.array_len()? else {
            return Ok(Tables::none(alloc));
        };
        if count != 2 {
            return Ok(Tables::none(alloc));
        }
        let left = frames.item(alloc, 0)?;
        let right = frames.item(alloc, 1)?;
        Ok(Tables {
            left: columns_of(alloc, left.value())?,
            right: columns_of(alloc, right.value())?,
        })
    }

    /// The columns of the two frames that a value has.
    pub(crate) fn of(alloc: Global, value: &Value) -> Result<Tables, AllocError> {
        match value.get("frames") {
            Some(frames) => Tables::of_frames(alloc, frames),
            None => Ok(Tables::none(alloc)),
        }
    }

    /// The columns of the table that an edit names, none where it names none.
    fn columns(&self, side: &Value) -> &[Column] {
        match side.as_str() {
            Some("left") => self.left.as_slice(),
            Some("right") => self.right.as_slice(),
            _ => &[],
        }
    }
}

/// The place of the first of so many cells of a row that may not stand in its column, and the column's type.
fn bad_cell(
    alloc: Global,
    columns: &[Column],
    row: &Value,
    count: usize,
) -> Result<Option<(usize, DataType)>, AllocError>
    requires { count ≤ length (elements (view row.now)) }
    ensures { IfOk result (λ bad. IfSome bad (IsBadPair (view row.now))) }
{
    for place in 0..count {
        if let Some(dtype) = type_at(columns, place) {
            let cell = row.item(alloc, place)?;
            if !is_cell(alloc, dtype, cell.value())? {
                return Ok(Some((place, dtype)));
            }
        }
    }
    Ok(None)
}

/// Looks at so many cells of a row of a table of as many columns.
fn look_at_cells(walk: &mut Walk, side: &Value, row: &Value, count: usize) -> Result<(), AllocError>
    requires { count ≤ length (elements (view row.now)) }
    ensures { OnOk result ((t : Written) → Looked (Want.Foreign Foreign.Row, view row.now, t) walk.old walk.new) }
{
    let alloc = walk.alloc;
    let columns = walk.tables.columns(side);
    let Some((place, dtype)) = bad_cell(alloc, columns, row, count)? else {
        return Ok(());
    };
    let column = name_at(alloc, columns, place)?;
    walk.note_item(
        place,
        Wrong::Cell {
            dtype,
            column,
            count: 1,
        },
    )
}

/// Looks at the so many cells of the row of an edit of the table that it names.
fn look_at_width(walk: &mut Walk, side: &Value, row: &Value, cells: usize) -> Result<(), AllocError>
    requires { cells ≡ length (elements (view row.now)) }
    ensures { OnOk result ((t : Written) → Looked (Want.Foreign Foreign.Row, view row.now, t) walk.old walk.new) }
{
    let columns = walk.tables.columns(side).len();
    if columns == 0 {
        return Ok(());
    }
    if cells != columns {
        return walk.note(Wrong::Width { cells, columns });
    }
    look_at_cells(walk, side, row, cells)
}

/// Looks at the row of an edit of the table that it names.
fn look_at_row(walk: &mut Walk, side: &Value, row: &Value) -> Result<(), AllocError>
    ensures looked { OnOk result ((t : Written) → Looked (Want.Foreign Foreign.Row, view row.now, t) walk.old walk.new) }
    ensures good { OnOk result ((t : Written) → walk.new.first ≡ None
        → IsGood (Want.Foreign Foreign.Row, view row.now, t)) }
{
    match row.array_len()? {
        Some(cells) => look_at_width(walk, side, row, cells),
        None => walk.note(Wrong::Other(Want::Foreign(Foreign::Row))),
    }
}

/// Looks at a word of an edit, which stands at a place.
fn look_at_word(
    walk: &mut Walk,
    edit: &Value,
    place: usize,
    want: Foreign,
) -> Result<(), AllocError>
    requires { place < length (elements (view edit.now)) }
    ensures looked { OnOk result
        ((t : Written) → item_wanted (Want.Foreign Foreign.Edit) place ≡ Some (Want.Foreign want)
        → (walk.old.first ≡ None
        → AreGoodBefore (Want.Foreign Foreign.Edit, view edit.now, t) place)
        → Looked (Want.Foreign Foreign.Edit, view edit.now, t) walk.old walk.new) }
    ensures good { OnOk result
        ((t : Written) → item_wanted (Want.Foreign Foreign.Edit) place ≡ Some (Want.Foreign want)
        → walk.new.first ≡ None
        → IsGoodItem (Want.Foreign Foreign.Edit, view edit.now, t) place) }
{
    let word = edit.item(walk.alloc, place)?;
    walk.enter_item(place)?;
    walk.judge(Want::Foreign(want), word.value())?;
    walk.leave();
    Ok(())
}

/// Looks at the row of an edit.
fn look_at_third(walk: &mut Walk, edit: &Value) -> Result<(), AllocError>
    requires { length (elements (view edit.now)) ≡ 3 }
    ensures looked { OnOk result ((t : Written) → (walk.old.first ≡ None
        → AreGoodBefore (Want.Foreign Foreign.Edit, view edit.now, t) 2)
        → Looked (Want.Foreign Foreign.Edit, view edit.now, t) walk.old walk.new) }
    ensures good { OnOk result ((t : Written) → walk.new.first ≡ None
        → IsGoodItem (Want.Foreign Foreign.Edit, view edit.now, t) 2) }
{
    let alloc = walk.alloc;
    let side = edit.item(alloc, 0)?;
    let row = edit.item(alloc, 2)?;
    walk.enter_item(2)?;
    look_at_row(walk, side.value(), row.value())?;
    walk.leave();
    Ok(())
}

/// Looks at the parts of an edit: the side, what is done, and the row.
pub(crate) fn look_at_edit(walk: &mut Walk, value: &Value) -> Result<(), AllocError>
    requires { is_some (as_array (view value.now)) ≡ true }
    ensures looked { OnOk result
        ((t : Written) → Looked (Want.Foreign Foreign.Edit, view value.now, t) walk.old walk.new) }
    ensures good { OnOk result ((t : Written) → walk.new.first ≡ None
        → AreGoodParts (Want.Foreign Foreign.Edit, view value.now, t)) }
{
    let Some(count) = value.array_len()? else {
        return Ok(());
    };
    if count != 3 {
        return walk.note(Wrong::Parts(count));
    }
    look_at_word(walk, value, 0, Foreign::Side)?;
    look_at_word(walk, value, 1, Foreign::Word)?;
    look_at_third(walk, value)
}
