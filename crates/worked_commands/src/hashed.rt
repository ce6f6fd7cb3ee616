//! Runs under a hasher by which all keys have one hash.

use crate::case::Case;
use crate::runs::run_by;
use crate::told::{lines_of, said, tell};
use pipe_exec::run_plan_with;
use pipe_frame::DataFrame;
use pipe_job::{head_line, read_job, row_line};
use pipe_rows::ConstHash;
use pipe_schema::{OpenGate, StopAfter};
use std::alloc::{AllocError, Global};
use std::sync::Wait;
use std::thread::Threads;

/// The lines of a frame.
pub(crate) fn frame_lines(alloc: Global, frame: &DataFrame) -> Result<Vec<u8>, AllocError> {
    let mut lines = Vec::new(alloc);
    lines.extend_from_slice(head_line(alloc, frame.schema())?.as_slice())?;
    for i in 0..frame.height() {
        lines.extend_from_slice(row_line(alloc, frame, i)?.as_slice())?;
    }
    Ok(lines)
}

/// The lines of the rows of a job where all keys have this hash, and none where it has no rows.
fn hashed_lines<T: Threads + Sync>(
    rt: &T,
    alloc: Global,
    text: &str,
    hash: u64,
) -> Result<Vec<u8>, AllocError> {
    let Ok(job) = read_job(alloc, text.as_bytes()) else {
        return Ok(Vec::new(alloc));
    };
    let ran = run_plan_with(
        rt,
        alloc,
        &job.arena,
        job.root,
        &job.config,
        ConstHash { value: hash },
        &mut StopAfter::new(u64::MAX),
        &OpenGate,
    );
    match ran {
        Ok(answer) => frame_lines(alloc, &answer.frame),
        Err(_) => Ok(Vec::new(alloc)),
    }
}

/// Appends which hash all keys have.
pub(crate) fn tell_hash(alloc: Global, answers: &mut String, hash: u64) -> Result<(), AllocError> {
    let shows = format!(in alloc; "all keys have the hash {hash}")?;
    tell(answers, shows.as_str())
}

/// Appends whether a job's lines are the same where all keys have this hash.
pub(crate) fn tell_hashed<T: Threads + Wait + Sync>(
    rt: &T,
    alloc: Global,
    answers: &mut String,
    case: Case<'_>,
    hash: u64,
) -> Result<(), AllocError> {
    let ended = run_by(rt, alloc, case, case.words, case.text)?;
    let plain = lines_of(alloc, case, ended.out.bytes())?;
    let hashed = hashed_lines(rt, alloc, case.text, hash)?;
    let hashed = lines_of(alloc, case, hashed.as_slice())?;
    answers.push_str(case.shows)?;
    answers.push_str(": ")?;
    answers.push_str(said(plain.as_str() == hashed.as_str()))?;
    answers.push_str("\n")
}
