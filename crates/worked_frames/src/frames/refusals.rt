//! Frames and selections that are refused, and one that isn't.

use crate::frames::rows::WORKED;
use crate::frames::told::{fault_text, frame_text, line, not_made};
use pipe_frame::DataFrame;
use pipe_schema::DataType;
use std::alloc::{AllocError, Global};
use worked_columns::{INT, TEXT, WrittenColumn, frame_of, series_of, texts};

/// The frame of some columns, or why there is none.
fn framed(alloc: Global, columns: &[WrittenColumn]) -> Result<String, AllocError> {
    let mut made = Vec::new(alloc);
    for (name, dtype, cells) in columns {
        made.push(series_of(alloc, name, *dtype, cells)?)?;
    }
    match DataFrame::new(alloc, made) {
        Ok(frame) => frame_text(alloc, &frame),
        Err(fault) => fault_text(alloc, &fault),
    }
}

/// The columns of these names, or why there are none.
fn selected(alloc: Global, names: &[&str]) -> Result<String, AllocError> {
    let Some(frame) = frame_of(alloc, WORKED)? else {
        return not_made(alloc);
    };
    match frame.select(texts(alloc, names)?.as_slice()) {
        Ok(chosen) => frame_text(alloc, &chosen),
        Err(fault) => fault_text(alloc, &fault),
    }
}

const REPEATED: &[WrittenColumn] = &[
    ("a", INT, &["1"]),
    ("b", TEXT, &["p"]),
    ("b", DataType::Boolean, &["true"]),
    ("a", INT, &["2"]),
];

const UNEVEN: &[WrittenColumn] = &[
    ("a", INT, &["1", "2"]),
    ("b", INT, &["1", "2"]),
    ("c", INT, &["1", "2", "3"]),
    ("d", INT, &[]),
];

const UNEVEN_AND_REPEATED: &[WrittenColumn] = &[("a", INT, &["1"]), ("a", INT, &[])];

fn tell_frames(alloc: Global, answers: &mut String) -> Result<(), AllocError> {
    line(answers, "a frame of no column", framed(alloc, &[])?)?;
    line(answers, "two names repeated", framed(alloc, REPEATED)?)?;
    line(answers, "uneven columns", framed(alloc, UNEVEN)?)?;
    line(
        answers,
        "names before heights",
        framed(alloc, UNEVEN_AND_REPEATED)?,
    )?;
    line(answers, "a frame", framed(alloc, WORKED)?)
}

fn tell_selections(alloc: Global, answers: &mut String) -> Result<(), AllocError> {
    line(answers, "select nothing", selected(alloc, &[])?)?;
    line(
        answers,
        "select z, x, z, x",
        selected(alloc, &["z", "x", "z", "x"])?,
    )?;
    line(answers, "select x, z", selected(alloc, &["x", "z"])?)?;
    line(answers, "select x, k", selected(alloc, &["x", "k"])?)
}

pub(crate) fn tell(alloc: Global, answers: &mut String) -> Result<(), AllocError> {
    tell_frames(alloc, answers)?;
    tell_selections(alloc, answers)
}
