//! The ways in which a case is run.

use crate::case::Case;
use crate::made::text_of;
use crate::numbers::{tell_by_numbers, tell_many_times};
use crate::optimized::{tell_optimized, tell_optimized_run};
use crate::questions::tell_to_each_question;
use crate::runs::{input_of, run_behind, run_by, run_on};
use crate::sides::tell_sides;
use crate::told::{tell, tell_as, tell_ended};
use pipe_schema::{MeetGate, OpenGate};
use std::alloc::{AllocError, Global};
use std::sync::Wait;
use std::thread::Threads;

/// Appends how the program ends.
fn tell_once<T: Threads + Wait + Sync>(
    rt: &T,
    alloc: Global,
    answers: &mut String,
    case: Case<'_>,
    text: &str,
) -> Result<(), AllocError> {
    let ended = run_by(rt, alloc, case, case.words, text)?;
    tell_ended(alloc, answers, case, &ended)
}

/// Appends how the program ends that goes on reading behind a run of the same.
fn tell_again<T: Threads + Wait + Sync>(
    rt: &T,
    alloc: Global,
    answers: &mut String,
    case: Case<'_>,
    text: &str,
) -> Result<(), AllocError> {
    let mut input = input_of(alloc, case, text)?;
    drop(run_on(rt, alloc, case, case.words, &mut input)?);
    let ended = run_on(rt, alloc, case, case.words, &mut input)?;
    tell_ended(alloc, answers, case, &ended)
}

/// Appends how a job ends that is run, that is looked at, and that is explained.
fn tell_looked_at<T: Threads + Wait + Sync>(
    rt: &T,
    alloc: Global,
    answers: &mut String,
    case: Case<'_>,
    text: &str,
) -> Result<(), AllocError> {
    let run = run_by(rt, alloc, case, "run", text)?;
    tell_ended(alloc, answers, case, &run)?;
    let checked = run_by(rt, alloc, case, "check", text)?;
    tell_as(alloc, answers, case, "the same, looked at", &checked)?;
    let explained = run_by(rt, alloc, case, "explain", text)?;
    let case = Case {
        told: "lines",
        ..case
    };
    tell_as(alloc, answers, case, "the same, explained", &explained)
}

/// The status of the first so many bytes of a text.
fn status_of_front<T: Threads + Wait + Sync>(
    rt: &T,
    alloc: Global,
    case: Case<'_>,
    text: &str,
    len: usize,
) -> Result<u8, AllocError> {
    let ended = run_by(rt, alloc, case, case.words, text.get(..len).unwrap_or("{}"))?;
    Ok(ended.status)
}

/// Appends how many proper prefixes of a text are taken for JSON.
fn tell_each_prefix<T: Threads + Wait + Sync>(
    rt: &T,
    alloc: Global,
    answers: &mut String,
    case: Case<'_>,
    text: &str,
) -> Result<(), AllocError> {
    tell(answers, case.shows)?;
    let mut others = 0u64;
    for len in 0..text.len() {
        if status_of_front(rt, alloc, case, text, len)? != 4 {
            others = others.saturating_add(1);
        }
    }
    let told = format!(in alloc; "without status 4: {others}\n")?;
    answers.push_str(told.as_str())
}

/// Appends how a run ends whose workers wait at the gate until two have come, and whether two did.
fn tell_meeting<T: Threads + Sync>(
    rt: &T,
    alloc: Global,
    answers: &mut String,
    case: Case<'_>,
    text: &str,
) -> Result<(), AllocError> {
    let gate = MeetGate::new();
    let ended = run_behind(rt, alloc, case, text, &gate)?;
    tell_ended(alloc, answers, case, &ended)?;
    answers.push_str(if gate.met() {
        "two workers were there at once\n"
    } else {
        "no two workers were there at once\n"
    })
}

/// Appends how the call ends that streams nothing.
fn tell_unstreamed<T: Threads + Sync>(
    rt: &T,
    alloc: Global,
    answers: &mut String,
    case: Case<'_>,
    text: &str,
) -> Result<(), AllocError> {
    let ended = run_behind(rt, alloc, case, text, &OpenGate)?;
    tell_ended(alloc, answers, case, &ended)
}

/// Appends what a job shows that is run in more than one way.
fn tell_job<T: Threads + Wait + Sync>(
    rt: &T,
    alloc: Global,
    answers: &mut String,
    case: Case<'_>,
    text: &str,
) -> Result<(), AllocError> {
    match case.runs {
        "by numbers" => tell_by_numbers(rt, alloc, answers, case, text),
        "many times" => tell_many_times(rt, alloc, answers, case, text),
        "to each question" => tell_to_each_question(rt, alloc, answers, case, text),
        "with either side" => tell_sides(rt, alloc, answers, case, text),
        "optimized" => tell_optimized(rt, alloc, answers, case, text),
        "optimized and run" => tell_optimized_run(rt, alloc, answers, case, text),
        _ => tell(answers, "a case that is run in no way"),
    }
}

/// Appends what a case shows, and how it ended.
pub(crate) fn tell_case<T: Threads + Wait + Sync>(
    rt: &T,
    alloc: Global,
    answers: &mut String,
    case: Case<'_>,
) -> Result<(), AllocError> {
    let text = text_of(alloc, case)?;
    let text = text.as_str();
    match case.runs {
        "once" => tell_once(rt, alloc, answers, case, text),
        "again" => tell_again(rt, alloc, answers, case, text),
        "looked at" => tell_looked_at(rt, alloc, answers, case, text),
        "each prefix" => tell_each_prefix(rt, alloc, answers, case, text),
        "meeting" => tell_meeting(rt, alloc, answers, case, text),
        "without streams" => tell_unstreamed(rt, alloc, answers, case, text),
        _ => tell_job(rt, alloc, answers, case, text),
    }
}
