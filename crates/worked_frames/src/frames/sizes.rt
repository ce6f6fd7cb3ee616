//! Sizes of frames, in bytes.

ghost use Rattle.std.specs.Prelude.{◌≡◌, ◌+◌, ◌<◌, ◌^◌, IfOk, length};
ghost use Rattle.pipe_frame.specs.Sizes.{frame_size};

use crate::frames::numbers::numbers;
use crate::frames::told::{fault_text, line};
use pipe_column::{Native, Series, StringColumn};
use pipe_frame::DataFrame;
use pipe_schema::{FrameError, List, Text};
use std::alloc::{AllocError, Global};

/// The size of so many values.
fn size_of<T: Native>(alloc: Global, value: T, rows: u32) -> Result<String, AllocError> {
    match numbers(alloc, value, rows) {
        Ok(frame) => format!(in alloc; "{}", frame.estimated_size()),
        Err(fault) => fault_text(alloc, &fault),
    }
}

/// A frame of one text.
fn one_text(alloc: Global, text: &str) -> Result<DataFrame, FrameError>
    ensures { IfOk result (λ frame. frame_size frame ≡ 8 + length text.now) }
{
    let mut column = StringColumn::new(alloc);
    column.push(Some(text))?;
    let mut columns = List::new(alloc);
    columns.push(Series::from_string(Text::new(alloc), column))?;
    DataFrame::new(alloc, columns.into_vec())
}

/// The size of a text.
fn size_of_text(alloc: Global, text: &str) -> Result<String, AllocError> {
    match one_text(alloc, text) {
        Ok(frame) => format!(in alloc; "{}", frame.estimated_size()),
        Err(fault) => fault_text(alloc, &fault),
    }
}

fn tell_numbers(alloc: Global, answers: &mut String) -> Result<(), AllocError> {
    line(answers, "3 values of Int32", size_of(alloc, 1i32, 3)?)?;
    line(answers, "3 values of Int64", size_of(alloc, 1i64, 3)?)?;
    line(answers, "3 values of UInt32", size_of(alloc, 1u32, 3)?)?;
    line(answers, "3 values of UInt64", size_of(alloc, 1u64, 3)?)
}

pub(crate) fn tell(alloc: Global, answers: &mut String) -> Result<(), AllocError> {
    tell_numbers(alloc, answers)?;
    line(answers, "3 values of Boolean", size_of(alloc, true, 3)?)?;
    line(answers, "3 values of Int128", size_of(alloc, 1i128, 3)?)?;
    line(answers, "a text of 5 bytes", size_of_text(alloc, "abcde")?)?;
    line(answers, "an empty text", size_of_text(alloc, "")?)
}
