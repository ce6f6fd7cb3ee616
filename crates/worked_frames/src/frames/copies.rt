//! Copies, which equal their sources.

use crate::frames::names::place_or_none;
use crate::frames::rows::WORKED;
use crate::frames::told::{frame_text, line, not_made};
use pipe_schema::{AnyValue, DataType, List, Text, TryClone};
use std::alloc::{AllocError, Global};
use worked_columns::{INT, TEXT, WrittenColumn, frame_of, texts};

pub(crate) const LEDGER: &[WrittenColumn] = &[
    ("id", TEXT, &["A-1", "A-2", "-", "A-9"]),
    ("part", DataType::Int32, &["1", "-2147483648", "1", "-"]),
    ("amount", INT, &["500", "-", "60", "300"]),
    ("ref", DataType::Binary, &["00ff", "-", "15", "16"]),
    ("paid", DataType::Boolean, &["true", "false", "-", "true"]),
    ("small", DataType::UInt32, &["0", "4294967295", "-", "7"]),
    (
        "large",
        DataType::UInt64,
        &["0", "18446744073709551615", "-", "7"],
    ),
    (
        "wide",
        DataType::Int128,
        &["-1", "18446744073709551616", "-", "7"],
    ),
];

fn frame_copy(alloc: Global) -> Result<String, AllocError> {
    match frame_of(alloc, LEDGER)? {
        Some(frame) => frame_text(alloc, &frame.try_clone()?),
        None => not_made(alloc),
    }
}

fn list_copy(alloc: Global) -> Result<String, AllocError> {
    let names = texts(alloc, &["p", "q"])?;
    let copy: List<Text> = names.try_clone()?;
    let mut line = String::new(alloc);
    for name in copy.as_slice() {
        line.push_str(name.as_str())?;
    }
    format!(in alloc; "{line} {}", copy.len())
}

fn cells_copy(alloc: Global) -> Result<String, AllocError> {
    let mut cells = List::new(alloc);
    cells.push(AnyValue::Null)?;
    cells.push(AnyValue::Int128(-5))?;
    let copy: List<AnyValue> = cells.try_clone()?;
    let mut line = String::new(alloc);
    for (cell, source) in copy.as_slice().iter().zip(cells.as_slice()) {
        line.push_str(if cell.is_same(source) {
            "same "
        } else {
            "other "
        })?;
    }
    format!(in alloc; "{line}{}", copy.len())
}

fn schema_copy(alloc: Global) -> Result<String, AllocError> {
    match frame_of(alloc, WORKED)? {
        Some(frame) => place_or_none(alloc, frame.schema().try_clone()?.index_of(b"x")),
        None => not_made(alloc),
    }
}

pub(crate) fn tell(alloc: Global, answers: &mut String) -> Result<(), AllocError> {
    line(answers, "a frame's copy", frame_copy(alloc)?)?;
    line(answers, "a list's copy", list_copy(alloc)?)?;
    line(answers, "cells and their copies", cells_copy(alloc)?)?;
    line(
        answers,
        "place of x in a schema's copy",
        schema_copy(alloc)?,
    )
}
