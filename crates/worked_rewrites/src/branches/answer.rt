//! The answer to a plan: its branches, each as its text and as its numbers.

use crate::written::{is_shown, push_line};
use pipe_check::{CheckedPlan, check_plan};
use pipe_driver::{Branch, SinkAt, SinkNode, cut, explain};
use pipe_plan::Arena;
use std::alloc::{AllocError, Global};
use worked_texts::job_of;

/// Where a sink stands.
fn place_text(alloc: Global, at: SinkAt) -> Result<String, AllocError> {
    match at {
        SinkAt::Ordered => String::from_str(alloc, "ordered"),
        SinkAt::Sort(node) => format!(in alloc; "sort {node}"),
        SinkAt::Build(node) => format!(in alloc; "build {node}"),
    }
}

/// A sink: its number, where it stands, and behind how many operators.
fn sink_text(alloc: Global, sink: &SinkNode) -> Result<String, AllocError> {
    let count = sink.count;
    let offset = sink.offset;
    let place = place_text(alloc, sink.at)?;
    format!(in alloc; "; sink {count} {place} after {offset}")
}

/// A branch by its numbers.
fn branch_line(alloc: Global, branch: &Branch) -> Result<String, AllocError> {
    let source = branch.source;
    let mut line = format!(in alloc; "  from {source} through")?;
    for n in branch.operators.as_slice() {
        line.push_str(format!(in alloc; " {n}")?.as_str())?;
    }
    for sink in branch.sinks.as_slice() {
        line.push_str(sink_text(alloc, sink)?.as_str())?;
    }
    line.push_str("\n")?;
    Ok(line)
}

/// The texts of a plan's branches, one a line.
fn push_texts(alloc: Global, answers: &mut String, plan: &CheckedPlan) -> Result<(), AllocError> {
    let texts = explain(alloc, plan)?;
    for text in texts.as_slice() {
        answers.push_str(text.as_str())?;
        answers.push_str("\n")?;
    }
    Ok(())
}

/// A plan's branches by their numbers, one a line.
fn push_branches(
    alloc: Global,
    answers: &mut String,
    plan: &CheckedPlan,
) -> Result<(), AllocError> {
    let branches = cut(alloc, plan)?;
    for branch in branches.as_slice() {
        answers.push_str(branch_line(alloc, branch)?.as_str())?;
    }
    Ok(())
}

/// A plan's branches, where it has no fault.
fn push_answer(
    alloc: Global,
    answers: &mut String,
    arena: &Arena,
    root: u32,
) -> Result<(), AllocError> {
    match check_plan(alloc, arena, root) {
        Ok(plan) => {
            push_texts(alloc, answers, &plan)?;
            push_branches(alloc, answers, &plan)
        }
        Err(_error) => answers.push_str("refused\n"),
    }
}

/// Appends the branches of a plan.
fn tell(alloc: Global, answers: &mut String, line: &str) -> Result<(), AllocError> {
    match job_of(alloc, line)? {
        Some(job) => push_answer(alloc, answers, &job.arena, job.root),
        None => answers.push_str("no job\n"),
    }
}

/// What each plan shows, and its branches.
pub(crate) fn answers(alloc: Global, lines: &[&str]) -> Result<String, AllocError> {
    let mut answers = String::new(alloc);
    for line in lines {
        if is_shown(line) {
            push_line(&mut answers, line)?;
        } else {
            tell(alloc, &mut answers, line)?;
        }
    }
    Ok(answers)
}
