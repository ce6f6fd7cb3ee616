//! The line of a plan.

use crate::parts::answer::sizes_of;
use crate::written::{is_shown, line_before, push_line};
use pipe_check::{CheckedPlan, check_plan};
use pipe_parts::parts_line;
use pipe_plan::Arena;
use std::alloc::{AllocError, Global};
use worked_texts::job_of;

/// The line of a plan.
fn push_plan_line(
    alloc: Global,
    answers: &mut String,
    plan: &CheckedPlan,
    sizes: &[u64],
) -> Result<(), AllocError> {
    let line = parts_line(alloc, plan, sizes)?;
    match str::from_utf8(line.as_slice()) {
        Ok(text) => answers.push_str(text),
        Err(_error) => answers.push_str("no text\n"),
    }
}

/// The line of a plan that has no fault.
fn push_answer(
    alloc: Global,
    answers: &mut String,
    arena: &Arena,
    root: u32,
    sizes: &[u64],
) -> Result<(), AllocError> {
    match check_plan(alloc, arena, root) {
        Ok(plan) => push_plan_line(alloc, answers, &plan, sizes),
        Err(_error) => answers.push_str("refused\n"),
    }
}

/// Appends the line of the plan of a line, whose frames have these sizes.
fn tell(alloc: Global, answers: &mut String, line: &str, sizes: &str) -> Result<(), AllocError> {
    let sizes = sizes_of(alloc, sizes)?;
    match job_of(alloc, line)? {
        Some(job) => push_answer(alloc, answers, &job.arena, job.root, sizes.as_slice()),
        None => answers.push_str("no job\n"),
    }
}

/// What each case shows, and its line. A case has a line of its own for the sizes of its frames.
pub(crate) fn lines(alloc: Global, written: &[&str]) -> Result<String, AllocError> {
    let mut answers = String::new(alloc);
    for (place, line) in written.iter().enumerate() {
        if is_shown(line) {
            push_line(&mut answers, line)?;
        } else if line.starts_with("{") {
            tell(alloc, &mut answers, line, line_before(written, place))?;
        }
    }
    Ok(answers)
}
