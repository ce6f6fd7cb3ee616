//! Answers as texts.

use pipe_frame::{DataFrame, Row};
use pipe_schema::AnyValue;
use std::alloc::{AllocError, Global};

/// A cell: `-` for null, bytes in hexadecimal digits.
fn cell_text(alloc: Global, cell: &AnyValue) -> Result<String, AllocError> {
    match cell {
        AnyValue::Null => String::from_str(alloc, "-"),
        AnyValue::Int32(x) => format!(in alloc; "{x}"),
        AnyValue::Int64(x) => format!(in alloc; "{x}"),
        AnyValue::UInt32(x) => format!(in alloc; "{x}"),
        AnyValue::UInt64(x) => format!(in alloc; "{x}"),
        AnyValue::Boolean(x) => format!(in alloc; "{x}"),
        AnyValue::String(x) => String::from_str(alloc, x.as_str()),
        AnyValue::Binary(x) => hex::encode(alloc, x.as_slice()),
        AnyValue::Int128(x) => format!(in alloc; "{x}"),
    }
}

/// Puts the cells of a row behind a line.
fn push_row(alloc: Global, line: &mut String, row: &Row) -> Result<(), AllocError> {
    line.push_str(" |")?;
    for cell in row.as_slice() {
        line.push_str(" ")?;
        line.push_str(cell_text(alloc, cell)?.as_str())?;
    }
    Ok(())
}

/// A frame: the names of its columns, and each row behind a bar.
pub(crate) fn frame_text(alloc: Global, frame: &DataFrame) -> Result<String, AllocError> {
    let mut line = String::new(alloc);
    for (place, field) in frame.schema().fields().iter().enumerate() {
        if place > 0 {
            line.push_str(" ")?;
        }
        line.push_str(field.name.as_str())?;
    }
    for i in 0..frame.height() {
        push_row(alloc, &mut line, &frame.row(i)?)?;
    }
    Ok(line)
}

/// The line of a case.
pub(crate) fn line(answers: &mut String, shows: &str, told: String) -> Result<(), AllocError> {
    answers.push_str(shows)?;
    answers.push_str(": ")?;
    answers.push_str(told.as_str())?;
    answers.push_str("\n")
}

/// What is told where the frame or the sort of a case couldn't be made.
pub(crate) fn not_made(alloc: Global) -> Result<String, AllocError> {
    String::from_str(alloc, "not made")
}
