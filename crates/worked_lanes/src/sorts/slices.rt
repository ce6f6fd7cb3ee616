//! Slices of the sorted list.

use crate::sorts::lanes::{by_first, sorted_columns};
use crate::told::line;
use pipe_sort::SortSlice;
use std::alloc::{AllocError, Global};
use worked_columns::{INT, WrittenColumn};

const EIGHT_TO_ONE: &[WrittenColumn] = &[("k", INT, &["8", "7", "6", "5", "4", "3", "2", "1"])];

const NONE: &[WrittenColumn] = &[("k", INT, &[])];

/// A slice of eight rows in order.
fn sliced(alloc: Global, offset: u64, len: u64) -> Result<String, AllocError> {
    let slice = Some(SortSlice { offset, len });
    sorted_columns(alloc, EIGHT_TO_ONE, &[by_first()], slice)
}

/// A slice of no rows.
fn of_none(alloc: Global) -> Result<String, AllocError> {
    let slice = Some(SortSlice { offset: 1, len: 2 });
    sorted_columns(alloc, NONE, &[by_first()], slice)
}

pub(crate) fn tell(alloc: Global, answers: &mut String) -> Result<(), AllocError> {
    line(answers, "five behind three", sliced(alloc, 3, 5)?)?;
    line(answers, "two from the front", sliced(alloc, 0, 2)?)?;
    line(answers, "past the end in part", sliced(alloc, 6, 5)?)?;
    line(answers, "past the end", sliced(alloc, 9, 5)?)?;
    line(answers, "no row", sliced(alloc, 2, 0)?)?;
    line(answers, "all rows", sliced(alloc, 0, u64::MAX)?)?;
    line(
        answers,
        "the greatest numbers",
        sliced(alloc, u64::MAX, u64::MAX)?,
    )?;
    line(answers, "of no row", of_none(alloc)?)
}
