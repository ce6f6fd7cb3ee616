//! Frames whose parts share their memory.

use crate::frames::copies::LEDGER;
use crate::frames::told::{frame_text, line, not_made};
use pipe_frame::DataFrame;
use pipe_schema::TryClone;
use std::alloc::{AllocError, Global};
use worked_columns::frame_of;

/// The last row of a part of two rows.
fn last_of_two(alloc: Global, part: &DataFrame) -> Result<String, AllocError> {
    if part.height() < 2 {
        return not_made(alloc);
    }
    frame_text(alloc, &part.slice(1, 1)?)
}

fn part_of_part(alloc: Global) -> Result<String, AllocError> {
    match frame_of(alloc, LEDGER)? {
        Some(frame) if frame.height() >= 4 => {
            let part = frame.shared()?.slice(2, 2)?;
            last_of_two(alloc, &part)
        }
        _ => not_made(alloc),
    }
}

/// The second of some rows, and the first.
fn turned(alloc: Global, part: &DataFrame) -> Result<String, AllocError> {
    if part.height() < 2 {
        return not_made(alloc);
    }
    frame_text(alloc, &part.take(&[1, 0])?)
}

fn turned_part(alloc: Global) -> Result<String, AllocError> {
    match frame_of(alloc, LEDGER)? {
        Some(frame) if frame.height() >= 4 => {
            let part = frame.shared()?.slice(1, 2)?;
            turned(alloc, &part)
        }
        _ => not_made(alloc),
    }
}

/// The last row of a shared frame with the frame behind it, and then the frame.
fn stacked_on_a_part(alloc: Global) -> Result<String, AllocError> {
    let Some(frame) = frame_of(alloc, LEDGER)? else {
        return not_made(alloc);
    };
    let whole = frame.shared()?;
    if whole.height() < 4 {
        return not_made(alloc);
    }
    let mut more = whole.slice(3, 1)?;
    more.vstack_mut(&whole)?;
    let mut both = frame_text(alloc, &more)?;
    both.push_str("; ")?;
    both.push_str(frame_text(alloc, &whole)?.as_str())?;
    Ok(both)
}

fn copy_of_shared(alloc: Global) -> Result<String, AllocError> {
    match frame_of(alloc, LEDGER)? {
        Some(frame) => frame_text(alloc, &frame.shared()?.shared()?.try_clone()?),
        None => not_made(alloc),
    }
}

pub(crate) fn tell(alloc: Global, answers: &mut String) -> Result<(), AllocError> {
    line(answers, "a shared frame's copy", copy_of_shared(alloc)?)?;
    line(
        answers,
        "the last row of its last two",
        part_of_part(alloc)?,
    )?;
    line(
        answers,
        "its third row, and its second",
        turned_part(alloc)?,
    )?;
    line(
        answers,
        "stacked on its last row",
        stacked_on_a_part(alloc)?,
    )
}
