//! Runs that are stopped at each of their questions.

use crate::case::{Case, Failing};
use crate::numbers::{Numbers, numbers_of, tell_numbers, text_by};
use crate::runs::{Ended, run_by};
use crate::told::tell_ended;
use std::alloc::{AllocError, Global};
use std::sync::Wait;
use std::thread::Threads;

/// At most so many questions are tried.
const MOST_QUESTIONS: u64 = 1_000;

/// Whether a run ended by the last answer of its stop check, and wrote nothing.
fn is_stop(ended: &Ended, left: u64) -> bool {
    ended.status == 8
        && ended.out.bytes().is_empty()
        && ended.yes == 1
        && ended.asked == left.saturating_add(1)
}

/// Whether a run wasn't stopped, and was asked as often as the plan has nodes.
fn is_last(ended: &Ended, left: u64, nodes: u64) -> bool {
    ended.yes == 0 && ended.asked == left && left >= nodes
}

/// How many nodes the plan of a job has.
fn nodes_of(text: &str) -> u64 {
    text.matches("\"node\":").count() as u64
}

/// How a run ends whose stop check says no so many times.
fn stopped<T: Threads + Wait + Sync>(
    rt: &T,
    alloc: Global,
    case: Case<'_>,
    text: &str,
    left: u64,
) -> Result<Ended, AllocError> {
    let failing = Failing {
        left,
        ..case.failing
    };
    let case = Case { failing, ..case };
    run_by(rt, alloc, case, case.words, text)
}

/// Appends how the first run ends that isn't stopped, and whether each before it was, of which there are at least as
/// many as nodes.
fn tell_by<T: Threads + Wait + Sync>(
    rt: &T,
    alloc: Global,
    answers: &mut String,
    case: Case<'_>,
    text: &str,
    numbers: Numbers,
) -> Result<(), AllocError> {
    let text = text_by(alloc, text, numbers)?;
    for left in 0..MOST_QUESTIONS {
        let ended = stopped(rt, alloc, case, text.as_str(), left)?;
        if !is_stop(&ended, left) {
            tell_ended(alloc, answers, case, &ended)?;
            let how = if is_last(&ended, left, nodes_of(text.as_str())) {
                "stopped each time before"
            } else {
                "not stopped"
            };
            return tell_numbers(alloc, answers, numbers, how);
        }
    }
    tell_numbers(alloc, answers, numbers, "always stopped")
}

/// The workers of these runs, and the rows of a chunk.
const NUMBERS: &str = "1 4294967295|1 1|3 1|5 2|256 1";

/// Tells of one plan, by one worker and by many, how the first run ends that no question stops.
pub(crate) fn tell_to_each_question<T: Threads + Wait + Sync>(
    rt: &T,
    alloc: Global,
    answers: &mut String,
    case: Case<'_>,
    text: &str,
) -> Result<(), AllocError> {
    for line in NUMBERS.split('|') {
        tell_by(rt, alloc, answers, case, text, numbers_of(line))?;
    }
    Ok(())
}
