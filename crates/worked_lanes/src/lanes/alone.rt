//! One lane, whose acts are the same in each run.

use crate::lanes::harness::{Outcome, run_all};
use crate::lanes::repeat::Repeat;
use crate::lanes::told::{cells_text, ending_text};
use pipe_frame::DataFrame;
use pipe_ops::PExecutionContext;
use pipe_schema::{OpenGate, StopAfter, StopCheck};
use std::alloc::{AllocError, Global};
use std::thread::Threads;
use worked_columns::{INT, frame_of};

/// An operator that is never refused anything.
pub(crate) fn times(times: u32) -> Repeat {
    Repeat {
        times,
        given: 0,
        calls: u32::MAX,
    }
}

/// One that is refused memory after so many calls.
pub(crate) fn refused_after(calls: u32) -> Repeat {
    Repeat {
        times: 1,
        given: 0,
        calls,
    }
}

/// Puts the lines of a case behind the others.
pub(crate) fn push_case(
    alloc: Global,
    answers: &mut String,
    name: &str,
    lines: &str,
) -> Result<(), AllocError> {
    let case = format!(in alloc; "# {name}\n{lines}")?;
    answers.push_str(case.as_str())
}

/// What an outcome shows: how it ended, what the first lane did, and the rows.
fn outcome_lines(alloc: Global, outcome: &Outcome) -> Result<String, AllocError> {
    let ending = ending_text(alloc, &outcome.ending)?;
    let rows = match &outcome.frame {
        Some(frame) => cells_text(alloc, frame)?,
        None => String::from_str(alloc, " none")?,
    };
    let entries = outcome.entries.as_str();
    format!(in alloc; "{ending}\nentries:{entries}\nrows:{rows}\n")
}

/// The rows 1, 2, .., 5.
const FIVE: &[&str] = &["1", "2", "3", "4", "5"];

/// The rows 1, 2, .., 10.
const TEN: &[&str] = &["1", "2", "3", "4", "5", "6", "7", "8", "9", "10"];

/// One lane over some rows in chunks of two.
fn one_lane<R: Threads + Sync>(
    rt: &R,
    alloc: Global,
    row_limit: u32,
    cells: &[&str],
    repeats: &[Repeat],
    stop: &mut StopAfter,
) -> Result<String, AllocError> {
    if row_limit == 0 || row_limit > 1000 {
        return String::from_str(alloc, "no limit\n");
    }
    let context = PExecutionContext {
        workers: 1,
        chunk_rows: 2,
        row_limit,
    };
    match frame_of(alloc, &[("k", INT, cells)])? {
        Some(frame) if frame.height() <= 1000 => {
            let outcome = run_all(rt, alloc, &context, repeats, &frame, stop, &OpenGate)?;
            outcome_lines(alloc, &outcome)
        }
        _ => String::from_str(alloc, "no frame\n"),
    }
}

/// A lane over five rows that is never stopped.
fn unstopped<R: Threads + Sync>(
    rt: &R,
    alloc: Global,
    row_limit: u32,
    repeats: &[Repeat],
) -> Result<String, AllocError> {
    let mut stop = StopAfter::new(1000);
    one_lane(rt, alloc, row_limit, FIVE, repeats, &mut stop)
}

/// A lane whose stop check says yes after so many questions, which are counted.
fn asked_over<R: Threads + Sync>(
    rt: &R,
    alloc: Global,
    cells: &[&str],
    repeat: Repeat,
    questions: u64,
) -> Result<String, AllocError> {
    let mut stop = StopAfter::new(questions);
    let lines = one_lane(rt, alloc, 100, cells, &[repeat], &mut stop)?;
    let asked = stop.asked();
    let yes = stop.yes();
    format!(in alloc; "{lines}asked {asked}, yes {yes}\n")
}

pub(crate) fn tell<R: Threads + Sync>(
    rt: &R,
    alloc: Global,
    answers: &mut String,
) -> Result<(), AllocError> {
    let lines = unstopped(rt, alloc, 100, &[times(1)])?;
    push_case(alloc, answers, "each row once", lines.as_str())?;
    let lines = unstopped(rt, alloc, 100, &[times(2), times(3)])?;
    push_case(
        alloc,
        answers,
        "two pieces, and three of each",
        lines.as_str(),
    )?;
    let lines = unstopped(rt, alloc, 100, &[times(3), times(0), times(2)])?;
    push_case(alloc, answers, "no piece", lines.as_str())?;
    let lines = unstopped(rt, alloc, 100, &[times(1), refused_after(2)])?;
    push_case(alloc, answers, "memory at the third chunk", lines.as_str())?;
    let lines = unstopped(rt, alloc, 7, &[times(1), times(2), times(1)])?;
    push_case(alloc, answers, "ten rows of node 2, over 7", lines.as_str())?;
    let lines = unstopped(rt, alloc, 7, &[times(2)])?;
    push_case(
        alloc,
        answers,
        "ten rows of the sink, over 7",
        lines.as_str(),
    )?;
    tell_asked(rt, alloc, answers)
}

/// Rounds of four chunks, with a question before each.
fn tell_asked<R: Threads + Sync>(
    rt: &R,
    alloc: Global,
    answers: &mut String,
) -> Result<(), AllocError> {
    let lines = asked_over(rt, alloc, FIVE, times(1), 0)?;
    push_case(alloc, answers, "stopped at once", lines.as_str())?;
    let lines = asked_over(rt, alloc, TEN, times(1), 1000)?;
    push_case(alloc, answers, "two rounds", lines.as_str())?;
    let lines = asked_over(rt, alloc, TEN, times(1), 1)?;
    push_case(
        alloc,
        answers,
        "stopped before the second round",
        lines.as_str(),
    )?;
    let lines = asked_over(rt, alloc, TEN, refused_after(4), 1000)?;
    push_case(alloc, answers, "memory in the second round", lines.as_str())
}
