//! Rows of a frame: parts of it, rows chosen, kept and stacked.

use crate::frames::told::{frame_text, line, not_made};
use pipe_column::{Column, Series};
use pipe_frame::DataFrame;
use pipe_schema::{Text, TryClone};
use std::alloc::{AllocError, Global};
use worked_columns::{INT, TEXT, WrittenColumn, frame_of};

pub(crate) const WORKED: &[WrittenColumn] = &[
    ("k", INT, &["1", "1", "2", "-"]),
    ("x", TEXT, &["p", "q", "-", "r"]),
];

fn measured(alloc: Global) -> Result<String, AllocError> {
    match frame_of(alloc, WORKED)? {
        Some(frame) => format!(in alloc; "{} {}", frame.height(), frame.width()),
        None => not_made(alloc),
    }
}

fn sliced(alloc: Global) -> Result<String, AllocError> {
    match frame_of(alloc, WORKED)? {
        Some(frame) if frame.height() >= 3 => frame_text(alloc, &frame.slice(1, 2)?),
        _ => not_made(alloc),
    }
}

fn taken(alloc: Global) -> Result<String, AllocError> {
    match frame_of(alloc, WORKED)? {
        Some(frame) if frame.height() >= 4 => frame_text(alloc, &frame.take(&[3, 0, 3])?),
        _ => not_made(alloc),
    }
}

fn taken_or_null(alloc: Global) -> Result<String, AllocError> {
    match frame_of(alloc, WORKED)? {
        Some(frame) if frame.height() >= 4 => {
            frame_text(alloc, &frame.take_opt(&[Some(3), None, Some(1)])?)
        }
        _ => not_made(alloc),
    }
}

/// A column of truth values.
fn mask(alloc: Global, values: &[Option<bool>]) -> Result<Column<bool>, AllocError> {
    let mut column = Column::new(alloc);
    for value in values {
        column.push_option(*value, false)?;
    }
    Ok(column)
}

fn filtered(alloc: Global) -> Result<String, AllocError> {
    let column = mask(alloc, &[Some(true), None, Some(false), Some(true)])?;
    let mask = Series::from_column(Text::new(alloc), column);
    match frame_of(alloc, WORKED)? {
        Some(frame) if frame.height() == mask.len() => { frame_text(alloc, &frame.filter(&mask)?) }
        _ => not_made(alloc),
    }
}

fn stacked(alloc: Global) -> Result<String, AllocError> {
    let Some(frame) = frame_of(alloc, WORKED)? else {
        return not_made(alloc);
    };
    let mut twice = frame.try_clone()?;
    twice.vstack_mut(&frame)?;
    frame_text(alloc, &twice)
}

fn cleared(alloc: Global) -> Result<String, AllocError> {
    match frame_of(alloc, WORKED)? {
        Some(frame) => frame_text(alloc, &frame.clear()?),
        None => not_made(alloc),
    }
}

fn empty(alloc: Global) -> Result<String, AllocError> {
    match frame_of(alloc, WORKED)? {
        Some(frame) => frame_text(alloc, &DataFrame::empty(alloc, frame.schema())?),
        None => not_made(alloc),
    }
}

fn tell_parts(alloc: Global, answers: &mut String) -> Result<(), AllocError> {
    line(answers, "height and width", measured(alloc)?)?;
    line(answers, "two rows from the second on", sliced(alloc)?)?;
    line(answers, "the last, the first, the last", taken(alloc)?)?;
    line(answers, "the last, none, the second", taken_or_null(alloc)?)
}

pub(crate) fn tell(alloc: Global, answers: &mut String) -> Result<(), AllocError> {
    tell_parts(alloc, answers)?;
    line(answers, "true, null, false, true", filtered(alloc)?)?;
    line(answers, "twice", stacked(alloc)?)?;
    line(answers, "cleared", cleared(alloc)?)?;
    line(answers, "empty", empty(alloc)?)
}
