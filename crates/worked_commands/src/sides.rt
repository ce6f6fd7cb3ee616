//! Inner joins that are run twice: with their left side built, and with their right side built.

use crate::case::Case;
use crate::hashed::frame_lines;
use crate::told::{lines_of, tell};
use pipe_check::check_plan;
use pipe_exec::both_sides;
use pipe_frame::DataFrame;
use pipe_job::{Job, read_job};
use pipe_plan::PipeError;
use std::alloc::{AllocError, Global};
use std::thread::Threads;

/// Appends the lines of a frame.
fn tell_frame(
    alloc: Global,
    answers: &mut String,
    case: Case<'_>,
    frame: &DataFrame,
) -> Result<(), AllocError> {
    let lines = frame_lines(alloc, frame)?;
    let told = lines_of(alloc, case, lines.as_slice())?;
    answers.push_str(told.as_str())
}

/// Appends why a join isn't run.
fn tell_refused(alloc: Global, answers: &mut String, refusal: PipeError) -> Result<(), AllocError> {
    let told = match refusal {
        PipeError::TooMany(node) => format!(in alloc; "refused: TooMany at node {node}\n")?,
        refusal => format!(in alloc; "refused: {refusal}\n")?,
    };
    answers.push_str(told.as_str())
}

/// The rows with the left side of a join built, and those with its right side built, or why it isn't run.
fn rows_of<T: Threads + Sync>(
    rt: &T,
    alloc: Global,
    job: &Job,
) -> Result<(DataFrame, DataFrame), PipeError> {
    check_plan(alloc, &job.arena, job.root)?;
    both_sides(rt, alloc, &job.arena, job.root, &job.config)
}

/// Appends what a job shows, and its rows with either side of its join built, or why it isn't run.
pub(crate) fn tell_sides<T: Threads + Sync>(
    rt: &T,
    alloc: Global,
    answers: &mut String,
    case: Case<'_>,
    text: &str,
) -> Result<(), AllocError> {
    tell(answers, case.shows)?;
    let Ok(job) = read_job(alloc, text.as_bytes()) else {
        return answers.push_str("no job\n");
    };
    match rows_of(rt, alloc, &job) {
        Ok((left_built, right_built)) => {
            answers.push_str("the left side built\n")?;
            tell_frame(alloc, answers, case, &left_built)?;
            answers.push_str("the right side built\n")?;
            tell_frame(alloc, answers, case, &right_built)
        }
        Err(refusal) => tell_refused(alloc, answers, refusal),
    }
}
