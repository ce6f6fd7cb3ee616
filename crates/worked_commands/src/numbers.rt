//! Jobs that are run by several numbers of workers and sizes of chunks.

use crate::case::Case;
use crate::runs::run_by;
use crate::told::{said, tell_ended};
use std::alloc::{AllocError, Global};
use std::sync::Wait;
use std::thread::Threads;

/// The workers of a run, and how many rows a chunk has at most.
#[derive(Clone, Copy)]
pub(crate) struct Numbers {
    pub(crate) workers: u32,
    pub(crate) chunk_rows: u32,
}

/// The numbers in the text of a job.
const WRITTEN: &str = "\"workers\":3,\"chunk_rows\":2,";

/// The numbers of a line, as `256 1`.
pub(crate) fn numbers_of(line: &str) -> Numbers {
    let (workers, chunk_rows) = line.split_once(' ').unwrap_or(("", ""));
    Numbers {
        workers: workers.parse::<u32>().unwrap_or(0),
        chunk_rows: chunk_rows.parse::<u32>().unwrap_or(0),
    }
}

/// The text of a job by other numbers.
pub(crate) fn text_by(alloc: Global, text: &str, numbers: Numbers) -> Result<String, AllocError> {
    let Numbers {
        workers,
        chunk_rows,
    } = numbers;
    let (front, back) = text.split_once(WRITTEN).unwrap_or((text, ""));
    format!(in alloc; "{front}\"workers\":{workers},\"chunk_rows\":{chunk_rows},{back}")
}

/// What a job shows, and how its run ends.
fn ending<T: Threads + Wait + Sync>(
    rt: &T,
    alloc: Global,
    case: Case<'_>,
    text: &str,
) -> Result<String, AllocError> {
    let ended = run_by(rt, alloc, case, case.words, text)?;
    let mut told = String::new(alloc);
    tell_ended(alloc, &mut told, case, &ended)?;
    Ok(told)
}

/// Whether a job's run by other numbers ends so.
fn ends_so<T: Threads + Wait + Sync>(
    rt: &T,
    alloc: Global,
    case: Case<'_>,
    text: &str,
    told: &str,
    numbers: Numbers,
) -> Result<bool, AllocError> {
    let text = text_by(alloc, text, numbers)?;
    let again = ending(rt, alloc, case, text.as_str())?;
    Ok(again.as_str() == told)
}

/// The other numbers by which each job is run: one thread, more threads over chunks of one row, and the most workers
/// over one chunk and over chunks of one row.
const OTHERS: &[(&str, &str)] = &[
    ("1 1", " by 1 worker\n"),
    ("5 1", " by 5 workers\n"),
    ("256 4294967295", " by 256 workers\n"),
    ("256 1", " by 256 workers, a row a chunk\n"),
];

/// Appends how a job's run ends by 3 workers in chunks of 2 rows, and whether it ends so by other numbers.
pub(crate) fn tell_by_numbers<T: Threads + Wait + Sync>(
    rt: &T,
    alloc: Global,
    answers: &mut String,
    case: Case<'_>,
    text: &str,
) -> Result<(), AllocError> {
    let told = ending(rt, alloc, case, text)?;
    answers.push_str(told.as_str())?;
    for (numbers, by) in OTHERS {
        let numbers = numbers_of(numbers);
        let same = ends_so(rt, alloc, case, text, told.as_str(), numbers)?;
        answers.push_str(said(same))?;
        answers.push_str(by)?;
    }
    Ok(())
}

/// How often each of the numbers is tried.
const TIMES: u32 = 3;

/// Workers and rows of a chunk, each of which is tried several times.
const MANY: &str = "1 4294967295|1 1|3 1|3 2|5 1|5 2|256 1|256 2";

/// Whether a job's run ends so each time.
fn ends_so_each_time<T: Threads + Wait + Sync>(
    rt: &T,
    alloc: Global,
    case: Case<'_>,
    text: &str,
    told: &str,
    numbers: Numbers,
) -> Result<bool, AllocError> {
    for _ in 0..TIMES {
        if !ends_so(rt, alloc, case, text, told, numbers)? {
            return Ok(false);
        }
    }
    Ok(true)
}

/// Appends the numbers of a run, and how it ended.
pub(crate) fn tell_numbers(
    alloc: Global,
    answers: &mut String,
    numbers: Numbers,
    how: &str,
) -> Result<(), AllocError> {
    let Numbers {
        workers,
        chunk_rows,
    } = numbers;
    let line = format!(in alloc; "workers {workers}, chunk_rows {chunk_rows}: {how}\n")?;
    answers.push_str(line.as_str())
}

/// Appends how a job's run ends by 3 workers in chunks of 2 rows, and whether it ends so by other numbers each time.
pub(crate) fn tell_many_times<T: Threads + Wait + Sync>(
    rt: &T,
    alloc: Global,
    answers: &mut String,
    case: Case<'_>,
    text: &str,
) -> Result<(), AllocError> {
    let told = ending(rt, alloc, case, text)?;
    answers.push_str(told.as_str())?;
    for line in MANY.split('|') {
        let numbers = numbers_of(line);
        let same = ends_so_each_time(rt, alloc, case, text, told.as_str(), numbers)?;
        tell_numbers(alloc, answers, numbers, said(same))?;
    }
    Ok(())
}
