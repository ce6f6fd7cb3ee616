//! Ties by all columns, nulls last, the rows of an unpivot, and whole numbers near and far.

use crate::sorts::lanes::{by_first, key, sorted_columns};
use crate::told::line;
use std::alloc::{AllocError, Global};
use worked_columns::{INT, TEXT, WrittenColumn};

const TIES: &[WrittenColumn] = &[
    ("k", INT, &["2", "-", "1", "2"]),
    ("x", TEXT, &["b", "x", "a", "a"]),
];

const UNPIVOTED: &[WrittenColumn] = &[
    ("id", INT, &["2", "1", "2", "1"]),
    ("variable", TEXT, &["b", "b", "a", "a"]),
    ("value", INT, &["8", "7", "-", "5"]),
];

/// Whole numbers that lie near each other, and two equal rows.
const NEAR: &[WrittenColumn] = &[
    ("k", INT, &["2", "-", "1", "2", "1", "-"]),
    ("x", INT, &["-5", "7", "-", "3", "-", "0"]),
];

/// Whole numbers that lie far from each other.
const FAR: &[WrittenColumn] = &[
    (
        "k",
        INT,
        &[
            "4611686018427387904",
            "-4611686018427387904",
            "4611686018427387904",
            "-",
        ],
    ),
    (
        "x",
        INT,
        &["1", "4611686018427387904", "-4611686018427387904", "0"],
    ),
];

pub(crate) fn tell(alloc: Global, answers: &mut String) -> Result<(), AllocError> {
    let descending = sorted_columns(alloc, TIES, &[key(0, true, true)], None)?;
    line(
        answers,
        "descending, nulls last, ties by all columns",
        descending,
    )?;
    let unpivoted = sorted_columns(alloc, UNPIVOTED, &[by_first()], None)?;
    line(answers, "an unpivot's rows by id", unpivoted)?;
    let no_key = sorted_columns(alloc, TIES, &[], None)?;
    line(answers, "by no key", no_key)?;
    let unknown = sorted_columns(alloc, TIES, &[key(2, false, false)], None)?;
    line(answers, "by a column that isn't there", unknown)?;
    let keys = [key(0, true, true), key(1, false, false)];
    let near = sorted_columns(alloc, NEAR, &keys, None)?;
    line(answers, "near numbers, down and nulls last, then up", near)?;
    let near = sorted_columns(alloc, NEAR, &[key(1, false, true)], None)?;
    line(
        answers,
        "near numbers by the second, nulls last, ties by all columns",
        near,
    )?;
    let far = sorted_columns(alloc, FAR, &[by_first()], None)?;
    line(answers, "far numbers", far)
}
