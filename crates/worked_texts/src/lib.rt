//! Cases that are texts, for programs that work them out: what is read, its parts, and the jobs in its lines.
#![tactic(auto)]

use pipe_job::{Job, JobError, read_job};
use std::alloc::{AllocError, Global};
use std::io::{self, Read};

/// All that is read.
pub fn input_of(alloc: Global, input: &mut impl Read) -> io::Result<String> {
    let mut text = String::new(alloc);
    input.read_to_string(&mut text)?;
    Ok(text)
}

/// The lines of a part of a text: those behind its heading and before the next.
pub fn part_of<'a>(
    alloc: Global,
    text: &'a str,
    heading: &str,
) -> Result<Vec<&'a str>, AllocError> {
    let mut part = Vec::new(alloc);
    let mut is_inside = false;
    for line in text.lines() {
        if line.starts_with("== ") {
            is_inside = line == heading;
        } else if is_inside {
            part.push(line)?;
        }
    }
    Ok(part)
}

/// The job that a line spells, none where it spells none.
pub fn job_of(alloc: Global, line: &str) -> Result<Option<Job>, AllocError> {
    match read_job(alloc, line.as_bytes()) {
        Ok(job) => Ok(Some(job)),
        Err(JobError::Memory) => Err(AllocError),
        Err(_) => Ok(None),
    }
}
