//! How an ended run is told.

use crate::case::Case;
use crate::runs::Ended;
use std::alloc::{AllocError, Global};

/// The lines of the sorted join, also where its first block is put first.
const SORTED_JOIN: &str =
    "[\"k\",\"x\",\"y\"]\n[1,\"p\",\"s\"]\n[1,\"p\",\"t\"]\n[1,\"q\",\"s\"]\n[1,\"q\",\"t\"]\n";

/// Its lines where the second block is put first.
const SECOND_FIRST: &str =
    "[\"k\",\"x\",\"y\"]\n[1,\"q\",\"s\"]\n[1,\"q\",\"t\"]\n[1,\"p\",\"s\"]\n[1,\"p\",\"t\"]\n";

/// What some bytes say, where they are UTF-8.
pub(crate) fn shown(bytes: &[u8]) -> &str {
    str::from_utf8(bytes).unwrap_or("not UTF-8\n")
}

/// Whether rows are the same, in words.
pub(crate) fn said(same: bool) -> &'static str {
    if same { "the same" } else { "other rows" }
}

/// Appends what a case shows.
pub(crate) fn tell(answers: &mut String, shows: &str) -> Result<(), AllocError> {
    answers.push_str("# ")?;
    answers.push_str(shows)?;
    answers.push_str("\n")
}

/// The first line of a text, and the others in the order of their bytes, since a join's rows have no order.
pub(crate) fn sorted_lines(alloc: Global, text: &str) -> Result<String, AllocError> {
    let mut sorted = String::new(alloc);
    let mut rows = Vec::new(alloc);
    for (place, line) in text.lines().enumerate() {
        if place == 0 {
            sorted.push_str(line)?;
            sorted.push_str("\n")?;
        } else {
            rows.push(line)?;
        }
    }
    rows.sort()?;
    for row in &rows {
        sorted.push_str(row)?;
        sorted.push_str("\n")?;
    }
    Ok(sorted)
}

/// The lines that a case wrote: in their order, or sorted.
pub(crate) fn lines_of(alloc: Global, case: Case<'_>, lines: &[u8]) -> Result<String, AllocError> {
    match case.told {
        "lines" | "questions" => String::from_str(alloc, shown(lines)),
        _ => sorted_lines(alloc, shown(lines)),
    }
}

/// What was written of the sorted join's lines: a front of them, where a write failed.
fn front_told(written: &str) -> &'static str {
    if SORTED_JOIN.starts_with(written) {
        ": a front of the lines"
    } else {
        ": no front of the lines"
    }
}

/// The blocks of a stream, which come in one of two orders.
fn blocks_told(written: &str) -> &str {
    if written == SORTED_JOIN || written == SECOND_FIRST {
        "the header, and its blocks in one of the two orders\n"
    } else {
        written
    }
}

/// Appends a status and what was written.
fn tell_written(
    alloc: Global,
    answers: &mut String,
    case: Case<'_>,
    ended: &Ended,
) -> Result<(), AllocError> {
    let lines = lines_of(alloc, case, ended.out.bytes())?;
    let told = format!(in alloc; "status {}\n{lines}", ended.status)?;
    answers.push_str(told.as_str())
}

/// Appends a status and how much was written: which front of the rows that is depends on their order.
fn tell_length(alloc: Global, answers: &mut String, ended: &Ended) -> Result<(), AllocError> {
    let written = ended.out.bytes().len();
    let told = format!(in alloc; "status {}, {written} bytes written\n", ended.status)?;
    answers.push_str(told.as_str())
}

/// Appends a status and how many lines were written.
fn tell_count(alloc: Global, answers: &mut String, ended: &Ended) -> Result<(), AllocError> {
    let lines = shown(ended.out.bytes()).lines().count();
    let told = format!(in alloc; "status {}, {lines} lines\n", ended.status)?;
    answers.push_str(told.as_str())
}

/// Appends a status and the blocks of a stream.
fn tell_blocks(alloc: Global, answers: &mut String, ended: &Ended) -> Result<(), AllocError> {
    let blocks = blocks_told(shown(ended.out.bytes()));
    let told = format!(in alloc; "status {}\n{blocks}", ended.status)?;
    answers.push_str(told.as_str())
}

/// Appends how often a stop check was asked and said yes.
fn tell_asked(alloc: Global, answers: &mut String, ended: &Ended) -> Result<(), AllocError> {
    let told = format!(in alloc; "asked {}, yes {}\n", ended.asked, ended.yes)?;
    answers.push_str(told.as_str())
}

/// Appends what a case shows, and how a run of it ended.
pub(crate) fn tell_as(
    alloc: Global,
    answers: &mut String,
    case: Case<'_>,
    shows: &str,
    ended: &Ended,
) -> Result<(), AllocError> {
    tell(answers, shows)?;
    match case.told {
        "length" | "front" => tell_length(alloc, answers, ended)?,
        "count" => tell_count(alloc, answers, ended)?,
        "blocks" => tell_blocks(alloc, answers, ended)?,
        _ => tell_written(alloc, answers, case, ended)?,
    }
    answers.push_str(shown(ended.notes.bytes()))
}

/// Appends what a case shows, and how its run ended.
pub(crate) fn tell_ended(
    alloc: Global,
    answers: &mut String,
    case: Case<'_>,
    ended: &Ended,
) -> Result<(), AllocError> {
    if case.told == "front" {
        let front = front_told(shown(ended.out.bytes()));
        let shows = format!(in alloc; "{}{front}", case.shows)?;
        return tell_as(alloc, answers, case, shows.as_str(), ended);
    }
    tell_as(alloc, answers, case, case.shows, ended)?;
    if case.told == "questions" {
        tell_asked(alloc, answers, ended)?;
    }
    Ok(())
}
