//! Many rows, sorted on threads.

use crate::sorts::lanes::{by_first, sorted_on_threads};
use crate::told::{frame_text, line, not_made};
use pipe_frame::DataFrame;
use pipe_schema::TryClone;
use std::alloc::{AllocError, Global};
use std::thread::Threads;
use worked_columns::{INT, TEXT, WrittenColumn, frame_of};

/// Three rows, in no order.
const THREE: &[WrittenColumn] = &[("k", INT, &["3", "1", "2"]), ("x", TEXT, &["c", "a", "b"])];

/// The three rows, 8,192 times.
fn many(alloc: Global) -> Result<Option<DataFrame>, AllocError> {
    let Some(mut frame) = frame_of(alloc, THREE)? else {
        return Ok(None);
    };
    for _ in 0..13 {
        let copy = frame.try_clone()?;
        frame.vstack_mut(&copy)?;
    }
    Ok(Some(frame))
}

/// How many rows there are, and those around each change of the key.
fn around_changes(alloc: Global, frame: &DataFrame) -> Result<String, AllocError> {
    let height = frame.height();
    if height < 24_576 {
        return not_made(alloc);
    }
    let first = frame_text(alloc, &frame.slice(8_190, 4)?)?;
    let second = frame_text(alloc, &frame.slice(16_382, 4)?)?;
    format!(in alloc; "{height} rows; {first}; {second}")
}

fn ordered<R: Threads + Sync>(rt: &R, alloc: Global) -> Result<String, AllocError> {
    let Some(frame) = many(alloc)? else {
        return not_made(alloc);
    };
    match sorted_on_threads(rt, alloc, &[by_first()], frame)? {
        Some(made) => around_changes(alloc, &made),
        None => not_made(alloc),
    }
}

pub(crate) fn tell<R: Threads + Sync>(
    rt: &R,
    alloc: Global,
    answers: &mut String,
) -> Result<(), AllocError> {
    line(answers, "many rows, on threads", ordered(rt, alloc)?)
}
