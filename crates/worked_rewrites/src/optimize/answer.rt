//! The answer to a case: the nodes of the rewritten plan, or why there is none.

use crate::shown::node_text;
use crate::written::{is_shown, push_line};
use pipe_check::check_plan;
use pipe_optimize::{Rewritten, optimize};
use pipe_plan::{Arena, PipeError};
use std::alloc::{AllocError, Global};
use worked_texts::job_of;

/// The plan under a root, rewritten.
pub(crate) fn rewritten(alloc: Global, arena: &Arena, root: u32) -> Result<Rewritten, PipeError> {
    let plan = check_plan(alloc, arena, root)?;
    optimize(alloc, &plan)
}

/// Appends the nodes of a rewritten plan.
fn push_nodes(alloc: Global, answers: &mut String, made: &Rewritten) -> Result<(), AllocError> {
    for node in made.nodes.as_slice() {
        let text = node_text(alloc, node)?;
        answers.push_str(text.as_str())?;
        answers.push_str("\n")?;
    }
    Ok(())
}

/// Appends why a plan isn't rewritten.
pub(crate) fn push_refusal(answers: &mut String, error: &PipeError) -> Result<(), AllocError> {
    match error {
        PipeError::Memory => Err(AllocError),
        PipeError::TooMany(_) => answers.push_str("too many\n"),
        _ => answers.push_str("no plan\n"),
    }
}

/// Appends the rewriting of the plan of a line.
fn tell(alloc: Global, answers: &mut String, line: &str) -> Result<(), AllocError> {
    let Some(job) = job_of(alloc, line)? else {
        return answers.push_str("no job\n");
    };
    match rewritten(alloc, &job.arena, job.root) {
        Ok(made) => push_nodes(alloc, answers, &made),
        Err(error) => push_refusal(answers, &error),
    }
}

/// Appends what some plans show, and their rewritings.
pub(crate) fn tell_all(
    alloc: Global,
    answers: &mut String,
    lines: &[&str],
) -> Result<(), AllocError> {
    for line in lines {
        if is_shown(line) {
            push_line(answers, line)?;
        } else {
            tell(alloc, answers, line)?;
        }
    }
    Ok(())
}
