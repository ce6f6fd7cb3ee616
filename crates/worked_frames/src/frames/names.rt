//! Names: places of them, the first that is repeated, the first that no field has.

use crate::frames::rows::WORKED;
use crate::frames::told::{line, not_made};
use pipe_schema::{Text, first_repeated};
use std::alloc::{AllocError, Global};
use worked_columns::{frame_of, texts};

/// A name, or that there is none.
pub(crate) fn name_or_none(alloc: Global, name: Option<&Text>) -> Result<String, AllocError> {
    String::from_str(alloc, name.map_or("none", |name| name.as_str()))
}

/// A place, or that there is none.
pub(crate) fn place_or_none(alloc: Global, place: Option<usize>) -> Result<String, AllocError> {
    match place {
        Some(place) => format!(in alloc; "{place}"),
        None => String::from_str(alloc, "none"),
    }
}

fn place_of(alloc: Global, name: &[u8]) -> Result<String, AllocError> {
    match frame_of(alloc, WORKED)? {
        Some(frame) => place_or_none(alloc, frame.schema().index_of(name)),
        None => not_made(alloc),
    }
}

fn repeated(alloc: Global, names: &[&str]) -> Result<String, AllocError> {
    let names = texts(alloc, names)?;
    name_or_none(alloc, first_repeated(alloc, names.as_slice())?)
}

fn unknown(alloc: Global, names: &[&str]) -> Result<String, AllocError> {
    let Some(frame) = frame_of(alloc, WORKED)? else {
        return not_made(alloc);
    };
    let names = texts(alloc, names)?;
    name_or_none(alloc, frame.schema().first_unknown(names.as_slice()))
}

fn tell_repeated(alloc: Global, answers: &mut String) -> Result<(), AllocError> {
    line(
        answers,
        "repeated in a, b, b, a",
        repeated(alloc, &["a", "b", "b", "a"])?,
    )?;
    line(
        answers,
        "repeated in a, b, c, b, c",
        repeated(alloc, &["a", "b", "c", "b", "c"])?,
    )?;
    line(
        answers,
        "repeated in a, b, c",
        repeated(alloc, &["a", "b", "c"])?,
    )?;
    line(answers, "repeated in no name", repeated(alloc, &[])?)
}

pub(crate) fn tell(alloc: Global, answers: &mut String) -> Result<(), AllocError> {
    line(answers, "place of x", place_of(alloc, b"x")?)?;
    line(answers, "place of y", place_of(alloc, b"y")?)?;
    tell_repeated(alloc, answers)?;
    line(
        answers,
        "unknown of x, z, y",
        unknown(alloc, &["x", "z", "y"])?,
    )?;
    line(
        answers,
        "unknown of x, k, x",
        unknown(alloc, &["x", "k", "x"])?,
    )
}
