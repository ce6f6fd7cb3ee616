//! The rows of tables, and their edits.

ghost use Rattle.std.specs.Prelude.{◌≡◌, map};
ghost use Rattle.std.specs.List.{AllByRecursion};
ghost use Rattle.pipe_job.specs.Reads.{ReadWhere};
ghost use Rattle.pipe_view.specs.EditSpelling.{EditFits, IsEditOf, IsRowOf, are_cells, are_edits, columns_on, edit_spelling, is_edit};
ghost use Rattle.pipe_view.specs.RawSpelling.{RawCellFits, RawEditFits, raw_edit_spelling};

use crate::cells::cell_of;
use crate::raw_cell::RawCell;
use crate::raw_edit::RawEdit;
use crate::row_edit::RowEdit;
use crate::side::ViewSide;
use pipe_frame::Row;
use pipe_job::Misread;
use pipe_schema::{Field, List};
use std::alloc::Global;

/// The row of some columns that cells without a type are.
#[tactic(auto, using(crate::proofs::TypedEdits::row_rules))]
fn row_of(alloc: Global, fields: &[Field], cells: List<RawCell>) -> Result<Row, Misread>
    requires { AllByRecursion RawCellFits cells }
    ensures { ReadWhere (are_cells fields.now cells) (IsRowOf fields.now cells) result }
{
    let mut rest = cells.into_vec().into_iter();
    let mut row = List::new(alloc);
    for field in fields {
        let Some(cell) = rest.next() else {
            return Err(Misread::Other);
        };
        let cell = cell_of(alloc, field.dtype, &cell)?;
        row.push(cell)?;
    }
    match rest.next() {
        None => Ok(row),
        Some(_) => Err(Misread::Other),
    }
}

/// The columns of a side.
fn columns_of<'a>(side: ViewSide, left: &'a [Field], right: &'a [Field]) -> &'a [Field]
    ensures { result.now ≡ columns_on side left.now right.now }
{
    match side {
        ViewSide::Left => left,
        ViewSide::Right => right,
    }
}

/// The edit of two tables of some columns.
#[tactic(auto, using(crate::proofs::TypedEdits::edit_typed))]
fn edit_of(alloc: Global, left: &[Field], right: &[Field], raw: RawEdit) -> Result<RowEdit, Misread>
    requires { RawEditFits raw }
    ensures { ReadWhere (is_edit left.now right.now raw) (IsEditOf left.now right.now raw) result }
{
    let RawEdit { side, kind, cells } = raw;
    let row = row_of(alloc, columns_of(side, left, right), cells)?;
    Ok(RowEdit { side, kind, row })
}

/// The edits of two tables of some columns.
#[tactic(auto, using(crate::proofs::TypedEdits::edits_rules))]
pub(crate) fn edits_of(
    alloc: Global,
    left: &[Field],
    right: &[Field],
    raws: List<RawEdit>,
) -> Result<List<RowEdit>, Misread>
    requires { AllByRecursion RawEditFits raws }
    ensures { ReadWhere (are_edits left.now right.now raws)
        (λ edits. (map raw_edit_spelling raws ≡ map edit_spelling edits)
        × AllByRecursion (EditFits left.now right.now) edits) result }
{
    let mut edits = List::new(alloc);
    for raw in raws.into_vec() {
        let edit = edit_of(alloc, left, right, raw)?;
        edits.push(edit)?;
    }
    Ok(edits)
}
