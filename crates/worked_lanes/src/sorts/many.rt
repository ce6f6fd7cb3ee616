//! More rows, and texts that are alike in front.

use crate::sorts::lanes::{by_first, key, sorted_columns, sorted_text};
use crate::told::{line, not_made};
use pipe_column::Series;
use pipe_frame::DataFrame;
use pipe_schema::{AnyValue, DataType, Text};
use std::alloc::{AllocError, Global};
use worked_columns::{INT, TEXT, WrittenColumn};

const ALIKE: &[WrittenColumn] = &[
    (
        "k",
        TEXT,
        &[
            "abcdefgh2",
            "abcdefgh",
            "abcdefgh10",
            "abcdefg",
            "abcdefgh1",
        ],
    ),
    ("x", INT, &["1", "2", "3", "4", "5"]),
];

/// A column of 41 numbers, each once, in no order.
fn numbers(alloc: Global) -> Result<Series, AllocError> {
    let mut series = Series::new(alloc, Text::from_str(alloc, "k")?, DataType::Int64);
    for i in 0..41u32 {
        let cell = AnyValue::Int64((i * 7 % 41) as i64);
        if cell.fits(series.dtype()) {
            series.push(cell)?;
        }
    }
    Ok(series)
}

/// The numbers in order.
fn ordered(alloc: Global) -> Result<String, AllocError> {
    let mut columns = Vec::new(alloc);
    columns.push(numbers(alloc)?)?;
    match DataFrame::new(alloc, columns) {
        Ok(frame) => sorted_text(alloc, &[by_first()], None, &frame),
        Err(_) => not_made(alloc),
    }
}

pub(crate) fn tell(alloc: Global, answers: &mut String) -> Result<(), AllocError> {
    line(answers, "41 numbers", ordered(alloc)?)?;
    let up = sorted_columns(alloc, ALIKE, &[by_first()], None)?;
    line(answers, "texts alike in front", up)?;
    let down = sorted_columns(alloc, ALIKE, &[key(0, true, false)], None)?;
    line(answers, "texts alike in front, down", down)
}
