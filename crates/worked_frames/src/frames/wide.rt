//! Wide schemas, whose names are found by their order.

use crate::frames::names::{name_or_none, place_or_none};
use crate::frames::told::{fault_text, line};
use pipe_schema::{Field, FrameError, List, Schema, Text, TryClone};
use std::alloc::{AllocError, Global};
use worked_columns::INT;

/// Fields `c0`, `c7`, `c14` and so on, by steps of 7 modulo a count that 7 doesn't divide.
fn fields(alloc: Global, count: u32) -> Result<List<Field>, AllocError> {
    let mut fields = List::new(alloc);
    for i in 0..count {
        let number = (i as u64 * 7) % (count as u64);
        let name = Text::from_string(format!(in alloc; "c{number}")?);
        fields.push(Field { name, dtype: INT })?;
    }
    Ok(fields)
}

fn wide(alloc: Global) -> Result<Schema, FrameError> {
    Schema::new(fields(alloc, 100)?)
}

fn place_of(alloc: Global, name: &[u8]) -> Result<String, AllocError> {
    match wide(alloc) {
        Ok(schema) => place_or_none(alloc, schema.try_clone()?.index_of(name)),
        Err(fault) => fault_text(alloc, &fault),
    }
}

fn unknown(alloc: Global, names: &[&str]) -> Result<String, AllocError> {
    let names = worked_columns::texts(alloc, names)?;
    match wide(alloc) {
        Ok(schema) => name_or_none(alloc, schema.first_unknown(names.as_slice())),
        Err(fault) => fault_text(alloc, &fault),
    }
}

/// A wide schema with two names at its end that stand further on in front.
fn repeated(alloc: Global) -> Result<String, AllocError> {
    let mut fields = fields(alloc, 100)?;
    for name in ["c3", "c14"] {
        let name = Text::from_str(alloc, name)?;
        fields.push(Field { name, dtype: INT })?;
    }
    match Schema::new(fields) {
        Ok(schema) => format!(in alloc; "{} fields", schema.len()),
        Err(fault) => fault_text(alloc, &fault),
    }
}

pub(crate) fn tell(alloc: Global, answers: &mut String) -> Result<(), AllocError> {
    line(answers, "place of c0 of 100", place_of(alloc, b"c0")?)?;
    line(answers, "place of c21 of 100", place_of(alloc, b"c21")?)?;
    line(answers, "place of c93 of 100", place_of(alloc, b"c93")?)?;
    line(answers, "place of c100 of 100", place_of(alloc, b"c100")?)?;
    line(
        answers,
        "unknown of c99, c5x, d",
        unknown(alloc, &["c99", "c5x", "d"])?,
    )?;
    line(answers, "c3 and c14 again behind 100", repeated(alloc)?)
}
