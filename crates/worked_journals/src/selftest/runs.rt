//! Self-tests that are run.

ghost use Rattle.std.specs.Prelude.{◌≤◌};

use pipe_plan::PipeError;
use pipe_schema::{NeverStop, OpenGate, StopAfter, StopCheck};
use pipe_selftest::{selftest, selftest_lines};
use std::alloc::{AllocError, Global};
use std::thread::Threads;

/// The lines of a self-test.
fn lines<R: Threads + Sync, C: StopCheck>(
    rt: &R,
    alloc: Global,
    start: u64,
    rows: u32,
    stop: &mut C,
) -> Result<Vec<u8>, PipeError>
    requires some { 1 ≤ rows }
    requires few { rows ≤ 1000000 }
{
    let counts = selftest(rt, alloc, start, rows, stop, &OpenGate)?;
    Ok(selftest_lines(alloc, counts)?)
}

/// How a self-test ends: its lines, or the error.
fn tell_run<R: Threads + Sync, C: StopCheck>(
    rt: &R,
    alloc: Global,
    answers: &mut String,
    start: u64,
    rows: u32,
    stop: &mut C,
) -> Result<(), AllocError>
    requires some { 1 ≤ rows }
    requires few { rows ≤ 1000000 }
{
    match lines(rt, alloc, start, rows, stop) {
        Ok(text) => answers.push_str(str::from_utf8(text.as_slice()).unwrap_or("not UTF-8\n")),
        Err(error) => answers.push_str(format!(in alloc; "{error}\n")?.as_str()),
    }
}

/// Self-tests that nothing stops.
fn tell_whole<R: Threads + Sync>(
    rt: &R,
    alloc: Global,
    answers: &mut String,
    start: u64,
    rows: u32,
) -> Result<(), AllocError>
    requires some { 1 ≤ rows }
    requires few { rows ≤ 1000000 }
{
    answers.push_str(format!(in alloc; "selftest {start} {rows}\n")?.as_str())?;
    tell_run(rt, alloc, answers, start, rows, &mut NeverStop::new())
}

/// A self-test that is stopped when it was asked so often.
fn tell_stopped<R: Threads + Sync>(
    rt: &R,
    alloc: Global,
    answers: &mut String,
    after: u64,
) -> Result<(), AllocError> {
    answers.push_str(format!(in alloc; "selftest 7 2, stopped after {after}\n")?.as_str())?;
    tell_run(rt, alloc, answers, 7, 2, &mut StopAfter::new(after))
}

pub(crate) fn tell<R: Threads + Sync>(
    rt: &R,
    alloc: Global,
    answers: &mut String,
) -> Result<(), AllocError> {
    tell_whole(rt, alloc, answers, 7, 1)?;
    tell_whole(rt, alloc, answers, 7, 2)?;
    tell_whole(rt, alloc, answers, 7, 16)?;
    tell_whole(rt, alloc, answers, 1, 200_000)?;
    tell_whole(rt, alloc, answers, 1, 200_000)?;
    tell_stopped(rt, alloc, answers, 0)
}
