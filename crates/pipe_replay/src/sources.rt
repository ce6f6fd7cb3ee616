//! The rows at the positions of a source that are taken.

ghost use Rattle.std.specs.Prelude.{◌≡◌, [], ◌∷◌, ◌++◌, slice_index_or, IfOk, OnOk};
ghost use Rattle.std.specs.List.{range_with_len};
ghost use Rattle.pipe_events.specs.Worlds.{picked};

use pipe_frame::Row;
use pipe_schema::{List, TryClone};
use std::alloc::{AllocError, Global};

/// The row at a position, an empty one where there is none.
fn row_or_none<'a>(rows: &'a [Row], position: u64, none: &'a Row) -> &'a Row
    requires { none.now ≡ [] }
    ensures { result.now ≡ slice_index_or rows.now position [] }
{
    if position < rows.len() as u64 {
        &rows[position as usize]
    } else {
        none
    }
}

/// Adds the row at a position.
fn push_row_at(
    rows: &[Row],
    position: u64,
    none: &Row,
    made: &mut List<Row>,
) -> Result<(), AllocError>
    requires { none.now ≡ [] }
    ensures { let row = slice_index_or rows.now position [] in
        OnOk result (made.new ≡ made.old ++ row ∷ []) }
{
    made.push(row_or_none(rows, position, none).try_clone()?)?;
    Ok(())
}

/// The rows at so many positions, from one on.
pub(crate) fn picked_rows(
    alloc: Global,
    rows: &[Row],
    from: u32,
    amount: u32,
) -> Result<List<Row>, AllocError>
    ensures { let positions = range_with_len from amount in
        IfOk result (λ made. made ≡ picked rows.now positions) }
{
    let none = List::new(alloc);
    let mut made = List::new(alloc);
    for i in 0..amount {
        push_row_at(rows, u64::from(from) + u64::from(i), &none, &mut made)?;
    }
    Ok(made)
}
