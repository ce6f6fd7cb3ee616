//! Edits as they stand in a value.

ghost use Rattle.std.specs.Prelude.{◌≡◌};
ghost use Rattle.serde_json.specs.Data.{array, item, no_items, string};
ghost use Rattle.pipe_value.specs.Items.{item_data};
ghost use Rattle.pipe_value.specs.View.{view};
ghost use Rattle.pipe_job.specs.Reads.{ReadWhere};
ghost use Rattle.pipe_view.specs.RawSpelling.{RawEditFits, is_kind, is_raw_edit, is_side, is_triple, kind_name, raw_edit_spelling, side_name};

use crate::raw_cell::RawCell;
use crate::row_edit::EditKind;
use crate::side::ViewSide;
use pipe_job::{Misread, Spelled};
use pipe_schema::List;
use pipe_value::{Item, Value};
use std::alloc::Global;

/// An edit whose cells have no type yet.
#[derive(Debug, Drop)]
pub struct RawEdit {
    pub side: ViewSide,
    pub kind: EditKind,
    pub cells: List<RawCell>,
}

/// The side that a value names.
fn side_of(value: &Value) -> Result<ViewSide, Misread>
    ensures { ReadWhere (is_side (view value.now))
        (λ side. view value.now ≡ string (side_name side)) result }
{
    match value.as_str() {
        Some("left") => Ok(ViewSide::Left),
        Some("right") => Ok(ViewSide::Right),
        _ => Err(Misread::Other),
    }
}

/// What is done, as a value names it.
fn kind_of(value: &Value) -> Result<EditKind, Misread>
    ensures { ReadWhere (is_kind (view value.now))
        (λ kind. view value.now ≡ string (kind_name kind)) result }
{
    match value.as_str() {
        Some("insert") => Ok(EditKind::Insert),
        Some("remove") => Ok(EditKind::Remove),
        _ => Err(Misread::Other),
    }
}

/// The items of an array of three.
#[tactic(auto, using(crate::proofs::Triples::triple_rules))]
fn three_items<'a>(
    alloc: Global,
    value: &'a Value,
) -> Result<(Item<'a>, Item<'a>, Item<'a>), Misread>
    ensures { ReadWhere (is_triple (view value.now))
        (λ p. view value.now
        ≡ array (item (item_data p.0) (item (item_data p.1) (item (item_data p.2) no_items)))) result }
{
    let Some(count) = value.array_len()? else {
        return Err(Misread::Other);
    };
    if count != 3 {
        return Err(Misread::Other);
    }
    let first = value.item(alloc, 0)?;
    let second = value.item(alloc, 1)?;
    let third = value.item(alloc, 2)?;
    Ok((first, second, third))
}

impl Spelled for RawEdit {
    ghost spelling = { raw_edit_spelling };

    ghost fits = { RawEditFits };

    ghost shape = { is_raw_edit };

    #[tactic(auto, using(crate::proofs::Triples::edit_rules))]
    fn read(alloc: Global, value: &Value) -> Result<RawEdit, Misread> {
        let (side, kind, cells) = three_items(alloc, value)?;
        let side = side_of(side.value())?;
        let kind = kind_of(kind.value())?;
        let cells = List::<RawCell>::read(alloc, cells.value())?;
        Ok(RawEdit { side, kind, cells })
    }
}
