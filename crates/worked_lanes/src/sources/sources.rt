//! Frames, unions, and sources whose columns are brought into an order.

ghost use Rattle.std.specs.Prelude.{◌≡◌, length, IfOk};
ghost use Rattle.pipe_source.specs.Supplies.{left_of};

use crate::sources::chunks::{chunks_text, context_of};
use crate::told::{line, not_made};
use pipe_frame::DataFrame;
use pipe_source::{DataFrameSource, PhysSource, UnionSource};
use std::alloc::{AllocError, Global};
use worked_columns::{INT, WrittenColumn, frame_of};

const FIVE: &[WrittenColumn] = &[("k", INT, &["1", "2", "3", "4", "5"])];

const NINE: &[WrittenColumn] = &[("k", INT, &["1", "2", "3", "4", "5", "6", "7", "8", "9"])];

const NONE: &[WrittenColumn] = &[("k", INT, &[])];

const TWO: &[WrittenColumn] = &[("k", INT, &["8", "9"])];

/// A frame as a source.
fn source_of(frame: DataFrame) -> PhysSource
    ensures { length (left_of result) ≡ 1 }
{
    PhysSource::Frame(DataFrameSource::from_df(frame))
}

/// The chunks of a frame, for some workers and rows a chunk.
fn of_frame(
    alloc: Global,
    columns: &[WrittenColumn],
    workers: u32,
    chunk_rows: u32,
) -> Result<String, AllocError> {
    let Some(context) = context_of(workers, chunk_rows) else {
        return not_made(alloc);
    };
    match frame_of(alloc, columns)? {
        Some(frame) => chunks_text(alloc, &context, source_of(frame)),
        None => not_made(alloc),
    }
}

/// Three frames one after another.
fn three(
    alloc: Global,
    first: DataFrame,
    second: DataFrame,
    third: DataFrame,
) -> Result<UnionSource, AllocError>
    ensures { IfOk result (λ union. length union.left ≡ 3) }
{
    let sources = vec![in alloc; source_of(first), source_of(second), source_of(third)]?;
    Ok(UnionSource::new(sources))
}

/// A union, and behind it a frame.
fn and_then(alloc: Global, union: UnionSource, frame: DataFrame) -> Result<PhysSource, AllocError>
    requires { length union.left ≡ 3 }
{
    let sources = vec![in alloc; PhysSource::Union(union), source_of(frame)]?;
    Ok(PhysSource::Union(UnionSource::new(sources)))
}

/// The frame of some columns, or one of no column's rows where they make none.
fn made(
    alloc: Global,
    columns: &[WrittenColumn],
    other: &DataFrame,
) -> Result<DataFrame, AllocError> {
    match frame_of(alloc, columns)? {
        Some(frame) => Ok(frame),
        None => Ok(other.clear()?),
    }
}

/// The chunks of a union of an empty frame, five rows and an empty frame, and behind it two rows.
fn of_union(alloc: Global) -> Result<String, AllocError> {
    let Some(empty) = frame_of(alloc, NONE)? else {
        return not_made(alloc);
    };
    let Some(context) = context_of(1, 2) else {
        return not_made(alloc);
    };
    let five = made(alloc, FIVE, &empty)?;
    let two = made(alloc, TWO, &empty)?;
    let union = three(alloc, empty.clear()?, five, empty)?;
    chunks_text(alloc, &context, and_then(alloc, union, two)?)
}

pub(crate) fn tell(alloc: Global, answers: &mut String) -> Result<(), AllocError> {
    line(
        answers,
        "five rows, two a chunk",
        of_frame(alloc, FIVE, 1, 2)?,
    )?;
    line(
        answers,
        "nine rows, one a chunk",
        of_frame(alloc, NINE, 1, 1)?,
    )?;
    line(
        answers,
        "more rows a chunk than there are",
        of_frame(alloc, FIVE, 256, 100)?,
    )?;
    line(answers, "no row", of_frame(alloc, NONE, 3, 2)?)?;
    line(
        answers,
        "a union within a union, with empty frames",
        of_union(alloc)?,
    )
}
