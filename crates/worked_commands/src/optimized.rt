//! Jobs that are optimized, and then run.

use crate::case::Case;
use crate::runs::run_by;
use crate::told::{said, shown, sorted_lines, tell_as, tell_ended};
use std::alloc::{AllocError, Global};
use std::sync::Wait;
use std::thread::Threads;

/// Whether a run of a text writes the lines that a run of another writes.
fn run_alike<T: Threads + Wait + Sync>(
    rt: &T,
    alloc: Global,
    case: Case<'_>,
    one: &str,
    other: &str,
) -> Result<bool, AllocError> {
    let one = run_by(rt, alloc, case, "run", one)?;
    let other = run_by(rt, alloc, case, "run", other)?;
    let one_lines = sorted_lines(alloc, shown(one.out.bytes()))?;
    let other_lines = sorted_lines(alloc, shown(other.out.bytes()))?;
    Ok(one.status == 0 && other.status == 0 && one_lines.as_str() == other_lines.as_str())
}

/// Appends what is written of a job, and whether a run of that gives the job's rows.
pub(crate) fn tell_optimized<T: Threads + Wait + Sync>(
    rt: &T,
    alloc: Global,
    answers: &mut String,
    case: Case<'_>,
    text: &str,
) -> Result<(), AllocError> {
    let made = run_by(rt, alloc, case, "optimize", text)?;
    tell_ended(alloc, answers, case, &made)?;
    let alike = run_alike(rt, alloc, case, text, shown(made.out.bytes()))?;
    answers.push_str("run: ")?;
    answers.push_str(said(alike))?;
    answers.push_str("\n")
}

/// Appends how a run of what is written of a job ends.
pub(crate) fn tell_optimized_run<T: Threads + Wait + Sync>(
    rt: &T,
    alloc: Global,
    answers: &mut String,
    case: Case<'_>,
    text: &str,
) -> Result<(), AllocError> {
    let made = run_by(rt, alloc, case, "optimize", text)?;
    let run = run_by(rt, alloc, case, "run", shown(made.out.bytes()))?;
    let shows = format!(in alloc; "optimized and run: {}", case.shows)?;
    tell_as(alloc, answers, case, shows.as_str(), &run)
}
