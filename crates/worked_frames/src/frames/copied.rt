//! Copies of the frames of two jobs: of a sorted join and of the ledger.

use crate::frames::told::{frame_text, line, not_made};
use pipe_frame::DataChunk;
use pipe_schema::{DataType, TryClone};
use std::alloc::{AllocError, Global};
use worked_columns::{INT, TEXT, WrittenColumn, frame_of};

const JOIN_LEFT: &[WrittenColumn] = &[("k", INT, &["1", "1", "2"]), ("x", TEXT, &["p", "q", "r"])];

const JOIN_RIGHT: &[WrittenColumn] = &[("k", INT, &["1", "1", "3"]), ("y", TEXT, &["s", "t", "u"])];

const ORDERS: &[WrittenColumn] = &[
    (
        "id",
        TEXT,
        &[
            "A-1", "A-1", "A-2", "A-3", "A-4", "A-5", "A-5", "A-6", "A-7", "A-8", "-", "A-9",
        ],
    ),
    (
        "part",
        DataType::Int32,
        &["1", "2", "1", "1", "1", "1", "2", "1", "1", "1", "1", "1"],
    ),
    (
        "amount",
        INT,
        &[
            "500", "250", "-", "900", "120", "75", "75", "-", "40", "900", "60", "300",
        ],
    ),
    (
        "ref",
        DataType::Binary,
        &[
            "00ff", "0a", "", "01", "-", "10", "11", "12", "13", "14", "15", "16",
        ],
    ),
];

const PAYMENTS: &[WrittenColumn] = &[
    (
        "id",
        TEXT,
        &[
            "A-1", "A-1", "A-1", "A-3", "A-5", "A-6", "-", "A-8", "A-9", "A-7",
        ],
    ),
    (
        "part",
        DataType::Int32,
        &["1", "2", "2", "1", "2", "1", "1", "2", "1", "1"],
    ),
    (
        "paid",
        INT,
        &[
            "500", "200", "50", "900", "75", "10", "60", "900", "-", "40",
        ],
    ),
    (
        "ref",
        DataType::Binary,
        &["a0", "a1", "a2", "a3", "a4", "a5", "a6", "a7", "a8", "13"],
    ),
];

/// The copy of a frame.
fn frame_copy(alloc: Global, columns: &[WrittenColumn]) -> Result<String, AllocError> {
    match frame_of(alloc, columns)? {
        Some(frame) => frame_text(alloc, &frame.try_clone()?),
        None => not_made(alloc),
    }
}

/// The copy of a frame's schema.
fn schema_copy(alloc: Global, columns: &[WrittenColumn]) -> Result<String, AllocError> {
    let Some(frame) = frame_of(alloc, columns)? else {
        return not_made(alloc);
    };
    let copy = frame.schema().try_clone()?;
    let mut told = format!(in alloc; "{} fields", copy.len())?;
    for field in copy.fields() {
        let (name, dtype) = (field.name.as_str(), field.dtype);
        told.push_str(format!(in alloc; ", {name} {dtype:?}")?.as_str())?;
    }
    Ok(told)
}

/// The copy of the chunk of a frame.
fn chunk_copy(alloc: Global, columns: &[WrittenColumn]) -> Result<String, AllocError> {
    let Some(frame) = frame_of(alloc, columns)? else {
        return not_made(alloc);
    };
    let copy = DataChunk::new(3, frame).try_clone()?;
    let rows = frame_text(alloc, &copy.frame)?;
    format!(in alloc; "{} {rows}", copy.chunk_index)
}

pub(crate) fn tell(alloc: Global, answers: &mut String) -> Result<(), AllocError> {
    line(
        answers,
        "a join's left frame",
        frame_copy(alloc, JOIN_LEFT)?,
    )?;
    line(answers, "its schema", schema_copy(alloc, JOIN_LEFT)?)?;
    line(answers, "its chunk", chunk_copy(alloc, JOIN_LEFT)?)?;
    line(answers, "the right frame", frame_copy(alloc, JOIN_RIGHT)?)?;
    line(answers, "its schema", schema_copy(alloc, JOIN_RIGHT)?)?;
    line(answers, "its chunk", chunk_copy(alloc, JOIN_RIGHT)?)?;
    line(answers, "the ledger's orders", frame_copy(alloc, ORDERS)?)?;
    line(
        answers,
        "the ledger's payments",
        frame_copy(alloc, PAYMENTS)?,
    )
}
