//! The bad cells of a column.

ghost use Rattle.std.specs.Prelude.{◌≡◌, ◌+◌, ◌<◌, ◌≤◌, true, false, length, IfOk, OnOk, slice_index_or};
ghost use Rattle.serde_json.specs.Data.{null};
ghost use Rattle.pipe_value.specs.Items.{elements};
ghost use Rattle.pipe_value.specs.View.{view};
ghost use Rattle.pipe_job.specs.Shape.{is_cell};
ghost use Rattle.pipe_why_value.specs.Walks.{IsFirstBad};

use pipe_schema::DataType;
use pipe_value::Value;
use pipe_why_text::is_cell;
use std::alloc::{AllocError, Global};

/// The row of the first bad cell, and how many there are.
#[derive(Clone, Copy)]
pub(crate) struct BadCells {
    pub(crate) first: Option<usize>,
    pub(crate) count: usize,
}

/// Whether the item of an array at a place is a cell of a type.
fn is_cell_at(
    alloc: Global,
    dtype: DataType,
    values: &Value,
    row: usize,
) -> Result<bool, AllocError>
    requires { row < length (elements (view values.now)) }
    ensures no { IfOk result (λ holds. holds ≡ false
        → is_cell dtype (slice_index_or (elements (view values.now)) row null) ≡ false) }
    ensures yes { IfOk result (λ holds. holds ≡ true
        → is_cell dtype (slice_index_or (elements (view values.now)) row null) ≡ true) }
{
    match dtype {
        DataType::String => Ok(values.item_as_nullable_str(row).is_some()),
        _ => {
            let item = values.item(alloc, row)?;
            is_cell(alloc, dtype, item.value())
        }
    }
}

impl BadCells {
    /// Looks at the item of an array at a place, and takes note of it where it is no cell of a type.
    fn look_at(
        &mut self,
        alloc: Global,
        dtype: DataType,
        values: &Value,
        row: usize,
    ) -> Result<(), AllocError>
        requires { row < length (elements (view values.now)) }
        ensures { OnOk result (IsFirstBad dtype (view values.now) row self.old.first
            → IsFirstBad dtype (view values.now) (row + 1) self.new.first) }
    {
        if is_cell_at(alloc, dtype, values, row)? {
            return Ok(());
        }
        self.first = self.first.or(Some(row));
        self.count = self.count.saturating_add(1);
        Ok(())
    }
}

/// The bad cells of an array of so many.
pub(crate) fn bad_cells(
    alloc: Global,
    dtype: DataType,
    values: &Value,
    count: usize,
) -> Result<BadCells, AllocError>
    requires { count ≤ length (elements (view values.now)) }
    ensures { IfOk result (λ bad. IsFirstBad dtype (view values.now) count bad.first) }
{
    let mut bad = BadCells {
        first: None,
        count: 0,
    };
    for row in 0..count {
        bad.look_at(alloc, dtype, values, row)?;
    }
    Ok(bad)
}
