//! Chunks, and the frame of several.

use crate::frames::rows::WORKED;
use crate::frames::told::{frame_text, line, not_made};
use pipe_frame::{DataChunk, DataFrame, chunks_to_df_on, chunks_to_df_unchecked};
use pipe_schema::TryClone;
use std::alloc::{AllocError, Global};
use std::thread::Threads;
use worked_columns::frame_of;

/// The chunk of the worked frame.
fn chunk(alloc: Global) -> Result<Option<DataChunk>, AllocError> {
    match frame_of(alloc, WORKED)? {
        Some(frame) => Ok(Some(DataChunk::new(7, frame))),
        None => Ok(None),
    }
}

fn copied(alloc: Global) -> Result<String, AllocError> {
    let Some(chunk) = chunk(alloc)? else {
        return not_made(alloc);
    };
    let copy = chunk.try_clone()?;
    let rows = frame_text(alloc, &copy.frame)?;
    format!(in alloc; "{} {} {rows}", copy.chunk_index, copy.is_empty())
}

fn emptied(alloc: Global) -> Result<String, AllocError> {
    let Some(chunk) = chunk(alloc)? else {
        return not_made(alloc);
    };
    let other = chunk.with_data(chunk.frame.clear()?);
    format!(in alloc; "{} {}", other.chunk_index, other.is_empty())
}

fn joined(alloc: Global) -> Result<String, AllocError> {
    let Some(first) = chunk(alloc)? else {
        return not_made(alloc);
    };
    let schema = first.frame.schema().try_clone()?;
    let second = first.try_clone()?;
    let mut chunks = Vec::new(alloc);
    chunks.push(first)?;
    chunks.push(second)?;
    frame_text(alloc, &chunks_to_df_unchecked(alloc, chunks, &schema)?)
}

/// The rows of the worked frame, 8,192 times.
fn many(alloc: Global) -> Result<Option<DataFrame>, AllocError> {
    let Some(mut frame) = frame_of(alloc, WORKED)? else {
        return Ok(None);
    };
    for _ in 0..13 {
        let copy = frame.try_clone()?;
        frame.vstack_mut(&copy)?;
    }
    Ok(Some(frame))
}

/// How many rows there are, and those around the seam.
fn around_seam(alloc: Global, frame: &DataFrame) -> Result<String, AllocError> {
    let height = frame.height();
    if height < 65_536 {
        return not_made(alloc);
    }
    let rows = frame_text(alloc, &frame.slice(32_766, 4)?)?;
    format!(in alloc; "{height} rows, around the seam {rows}")
}

fn joined_on_threads<R: Threads + Sync>(rt: &R, alloc: Global) -> Result<String, AllocError> {
    let Some(frame) = many(alloc)? else {
        return not_made(alloc);
    };
    let schema = frame.schema().try_clone()?;
    let first = DataChunk::new(0, frame);
    let second = first.try_clone()?;
    let mut chunks = Vec::new(alloc);
    chunks.push(first)?;
    chunks.push(second)?;
    around_seam(alloc, &chunks_to_df_on(rt, alloc, 2, chunks, &schema)?)
}

pub(crate) fn tell<R: Threads + Sync>(
    rt: &R,
    alloc: Global,
    answers: &mut String,
) -> Result<(), AllocError> {
    line(answers, "a chunk's copy", copied(alloc)?)?;
    line(answers, "a chunk with no row", emptied(alloc)?)?;
    line(answers, "a chunk and its copy as one frame", joined(alloc)?)?;
    line(
        answers,
        "two chunks of many rows as one frame, on threads",
        joined_on_threads(rt, alloc)?,
    )
}
