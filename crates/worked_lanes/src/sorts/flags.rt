//! Each mix of the two flags, for one key and for two.

use crate::sorts::lanes::{key, sorted_columns};
use crate::told::line;
use std::alloc::{AllocError, Global};
use worked_columns::{INT, TEXT, WrittenColumn};

const ONE: &[WrittenColumn] = &[("k", INT, &["2", "-", "1"])];

const TWO: &[WrittenColumn] = &[
    ("k", INT, &["1", "-", "2", "1", "-"]),
    ("x", TEXT, &["a", "b", "c", "-", "-"]),
];

/// A sort of one column.
fn one(alloc: Global, descending: bool, nulls_last: bool) -> Result<String, AllocError> {
    sorted_columns(alloc, ONE, &[key(0, descending, nulls_last)], None)
}

/// A sort by both columns, the second the other way round.
fn two(alloc: Global, descending: bool, nulls_last: bool) -> Result<String, AllocError> {
    let keys = [
        key(0, descending, nulls_last),
        key(1, !descending, !nulls_last),
    ];
    sorted_columns(alloc, TWO, &keys, None)
}

pub(crate) fn tell(alloc: Global, answers: &mut String) -> Result<(), AllocError> {
    line(answers, "up, nulls first", one(alloc, false, false)?)?;
    line(answers, "up, nulls last", one(alloc, false, true)?)?;
    line(answers, "down, nulls first", one(alloc, true, false)?)?;
    line(answers, "down, nulls last", one(alloc, true, true)?)?;
    line(
        answers,
        "up, nulls first, then down, nulls last",
        two(alloc, false, false)?,
    )?;
    line(
        answers,
        "up, nulls last, then down, nulls first",
        two(alloc, false, true)?,
    )?;
    line(
        answers,
        "down, nulls first, then up, nulls last",
        two(alloc, true, false)?,
    )?;
    line(
        answers,
        "down, nulls last, then up, nulls first",
        two(alloc, true, true)?,
    )
}
