//! Frames of one column of values of fixed width, whose size is known.

ghost use Rattle.std.specs.Prelude.{◌≡◌, ◌*◌, IfOk, length};
ghost use Rattle.pipe_schema.specs.Sizes.{width_of};
ghost use Rattle.pipe_frame.specs.Sizes.{frame_size};
ghost use Rattle.worked_frames.specs.Numbers.{one_field};

use pipe_column::{Column, Native, Series};
use pipe_frame::DataFrame;
use pipe_schema::{FrameError, List, Text};
use std::alloc::Global;

/// A column of so many copies of a value.
fn repeated<T: Native>(alloc: Global, value: T, rows: u32) -> Result<Column<T>, FrameError>
    ensures { IfOk result (λ column. length column ≡ rows) }
{
    let mut column = Column::new(alloc);
    while column.len() < rows as usize {
        column.push(value)?;
    }
    Ok(column)
}

/// A frame of one column n of so many copies of a value.
pub(crate) fn numbers<T: Native>(
    alloc: Global,
    value: T,
    rows: u32,
) -> Result<DataFrame, FrameError>
    ensures schema { IfOk result (λ frame. frame.schema ≡ one_field T.dtype_of) }
    ensures size { IfOk result (λ frame. frame_size frame ≡ width_of T.dtype_of * rows) }
{
    let column = repeated(alloc, value, rows)?;
    let mut columns = List::new(alloc);
    columns.push(Series::from_column(Text::from_str(alloc, "n")?, column))?;
    DataFrame::new(alloc, columns.into_vec())
}
