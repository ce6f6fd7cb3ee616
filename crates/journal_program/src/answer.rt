//! The answer to a job.

use crate::written::event_line;
use pipe_exec::{RunAnswer, run_plan};
use pipe_job::{read_job, row_line};
use pipe_schema::{NeverStop, OpenGate};
use std::alloc::{AllocError, Global};
use std::thread::Threads;

/// The lines of a run: how often it asked its stop check, its events, and its rows.
fn lines_of(alloc: Global, answer: &RunAnswer, asked: u64) -> Result<Vec<u8>, AllocError> {
    let mut lines = Vec::new(alloc);
    lines.extend_from_slice("ran\n".as_bytes())?;
    lines.extend_from_slice(format!(in alloc; "{asked}\n")?.as_bytes())?;
    for event in answer.journal.events.as_slice() {
        lines.extend_from_slice(event_line(alloc, event)?.as_bytes())?;
    }
    lines.extend_from_slice("rows\n".as_bytes())?;
    for i in 0..answer.frame.height() {
        lines.extend_from_slice(row_line(alloc, &answer.frame, i)?.as_slice())?;
    }
    Ok(lines)
}

/// The bytes of a line.
fn told(alloc: Global, line: &str) -> Result<Vec<u8>, AllocError> {
    let mut bytes = Vec::new(alloc);
    bytes.extend_from_slice(line.as_bytes())?;
    Ok(bytes)
}

/// Why a job isn't run, or the lines of its run.
pub(crate) fn answer_to<T: Threads + Sync>(
    rt: &T,
    alloc: Global,
    bytes: &[u8],
) -> Result<Vec<u8>, AllocError> {
    let Ok(job) = read_job(alloc, bytes) else {
        return told(alloc, "no job\n");
    };
    let mut stop = NeverStop::new();
    match run_plan(
        rt,
        alloc,
        &job.arena,
        job.root,
        &job.config,
        &mut stop,
        &OpenGate,
    ) {
        Ok(answer) => lines_of(alloc, &answer, stop.asked()),
        Err(refusal) => told(alloc, format!(in alloc; "{refusal}\n")?.as_str()),
    }
}
