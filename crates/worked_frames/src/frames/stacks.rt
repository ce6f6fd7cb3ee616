//! Vertical stackers: which rows come out as frames of numbers are added.

ghost use Rattle.worked_frames.specs.Numbers.{HoldsNumbers};

use crate::frames::numbers::numbers;
use crate::frames::told::line;
use pipe_frame::{Stacked, StreamingVstacker};
use pipe_schema::FrameError;
use std::alloc::{AllocError, Global};

/// The heights that come out as a frame of so many rows is added, 0 where none comes.
fn add(
    alloc: Global,
    stacker: &mut StreamingVstacker,
    rows: u32,
) -> Result<(usize, usize), FrameError>
    requires { HoldsNumbers stacker.old }
    ensures { HoldsNumbers stacker.new }
{
    let Stacked { first, second } = match stacker.add(numbers(alloc, 1u64, rows)?) {
        Ok(stacked) => stacked,
        Err((_, error)) => return Err(error.into()),
    };
    Ok((
        first.as_ref().map_or(0, |frame| frame.height()),
        second.as_ref().map_or(0, |frame| frame.height()),
    ))
}

/// What comes out as frames of so many rows of 8 bytes are added one after another, and what is left.
fn stacked(alloc: Global, limit: u32, adds: &[u32]) -> Result<String, FrameError> {
    let mut stacker = StreamingVstacker::new(limit as u64);
    let mut line = String::new(alloc);
    for rows in adds {
        let (first, second) = add(alloc, &mut stacker, *rows)?;
        line.push_str(format!(in alloc; "{rows} gives {first} {second}, ")?.as_str())?;
    }
    let held = stacker.finish();
    let rest = held.as_ref().map_or(0, |frame| frame.height());
    line.push_str(format!(in alloc; "left {rest}")?.as_str())?;
    Ok(line)
}

/// The line of a limit.
fn tell_one(
    alloc: Global,
    answers: &mut String,
    shows: &str,
    limit: u32,
    adds: &[u32],
) -> Result<(), AllocError> {
    match stacked(alloc, limit, adds) {
        Ok(told) => line(answers, shows, told),
        Err(_) => Err(AllocError),
    }
}

pub(crate) fn tell(alloc: Global, answers: &mut String) -> Result<(), AllocError> {
    tell_one(alloc, answers, "limit 400", 400, &[10, 40, 10, 1, 10, 60])?;
    tell_one(alloc, answers, "limit 4096, one", 4096, &[10])?;
    tell_one(
        alloc,
        answers,
        "limit 4096, seven",
        4096,
        &[10, 10, 10, 10, 10, 10, 10],
    )?;
    tell_one(
        alloc,
        answers,
        "limit 4096, one of 40",
        4096,
        &[10, 40, 10, 10, 10, 10],
    )?;
    tell_one(
        alloc,
        answers,
        "limit 4096, three of 40",
        4096,
        &[40, 10, 10, 40, 10, 10, 40],
    )?;
    tell_one(
        alloc,
        answers,
        "limit 4096, three of 50",
        4096,
        &[50, 50, 50],
    )
}
