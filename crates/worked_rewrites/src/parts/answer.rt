//! The answer to a case: how each scan is cut, where the rules allow a choice.

use crate::shown::names_text;
use crate::written::{is_shown, line_before, push_line};
use pipe_check::{CheckedPlan, check_plan};
use pipe_parts::{Found, Obstacle, ScanCut, Why, Wish, find_obstacle, least_choice};
use pipe_plan::Arena;
use std::alloc::{AllocError, Global};
use worked_texts::job_of;

/// How many rows each frame is told to have.
pub(crate) fn sizes_of(alloc: Global, written: &str) -> Result<Vec<u64>, AllocError> {
    let mut sizes = Vec::new(alloc);
    for word in written.split_whitespace() {
        sizes.push(word.parse::<u64>().unwrap_or(0))?;
    }
    Ok(sizes)
}

/// How rows are cut.
fn cut_text(alloc: Global, cut: &Wish) -> Result<String, AllocError> {
    match cut {
        Wish::Split => String::from_str(alloc, "split"),
        Wish::Key { key, columns } => {
            let columns = names_text(alloc, columns.as_slice())?;
            format!(in alloc; "key {key} by{columns}")
        }
        Wish::Whole => String::from_str(alloc, "whole"),
    }
}

/// How one scan is cut.
fn scan_line(alloc: Global, one: &ScanCut) -> Result<String, AllocError> {
    let scan = one.scan;
    let cut = cut_text(alloc, &one.cut)?;
    format!(in alloc; "scan {scan} {cut}\n")
}

/// A choice.
fn push_found(alloc: Global, answers: &mut String, found: &Found) -> Result<(), AllocError> {
    for one in found.cuts.as_slice() {
        answers.push_str(scan_line(alloc, one)?.as_str())?;
    }
    let whole = found.whole;
    answers.push_str(format!(in alloc; "{whole} rows whole\n")?.as_str())
}

/// Why a node can't be had as it is wished.
fn why_text(why: Why) -> &'static str {
    match why {
        Why::SlicedSort => "a sort with a slice",
        Why::KeysNotColumns => "a full join whose keys aren't columns",
        Why::FullUnderKey => "a full join under a key",
        Why::NoPlainColumn => "a key that isn't a column of the input",
    }
}

/// What holds a plan up.
fn push_obstacle(
    alloc: Global,
    answers: &mut String,
    found: Option<Obstacle>,
) -> Result<(), AllocError> {
    match found {
        Some(found) => {
            let node = found.node;
            let why = why_text(found.why);
            answers.push_str(format!(in alloc; "not in parts: node {node}, {why}\n")?.as_str())
        }
        None => answers.push_str("nothing holds it up\n"),
    }
}

/// The choice for a plan, or what holds it up.
fn push_choice(
    alloc: Global,
    answers: &mut String,
    plan: &CheckedPlan,
    sizes: &[u64],
) -> Result<(), AllocError> {
    match least_choice(alloc, plan, sizes)? {
        Some(found) => push_found(alloc, answers, &found),
        None => push_obstacle(alloc, answers, find_obstacle(alloc, plan)?),
    }
}

/// The choice for a plan that has no fault.
fn push_answer(
    alloc: Global,
    answers: &mut String,
    arena: &Arena,
    root: u32,
    sizes: &[u64],
) -> Result<(), AllocError> {
    match check_plan(alloc, arena, root) {
        Ok(plan) => push_choice(alloc, answers, &plan, sizes),
        Err(_error) => answers.push_str("refused\n"),
    }
}

/// Appends the choice for the plan of a line, whose frames have these sizes.
fn tell(alloc: Global, answers: &mut String, line: &str, sizes: &str) -> Result<(), AllocError> {
    let sizes = sizes_of(alloc, sizes)?;
    match job_of(alloc, line)? {
        Some(job) => push_answer(alloc, answers, &job.arena, job.root, sizes.as_slice()),
        None => answers.push_str("no job\n"),
    }
}

/// What each case shows, and its choice. A case has a line of its own for the sizes of its frames.
pub(crate) fn answers(alloc: Global, lines: &[&str]) -> Result<String, AllocError> {
    let mut answers = String::new(alloc);
    for (place, line) in lines.iter().enumerate() {
        if is_shown(line) {
            push_line(&mut answers, line)?;
        } else if line.starts_with("{") {
            tell(alloc, &mut answers, line, line_before(lines, place))?;
        }
    }
    Ok(answers)
}
