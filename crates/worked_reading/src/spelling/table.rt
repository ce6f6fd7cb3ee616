//! The cases, in the order in which they are told.

use crate::spelling::cases::{CASES, Case};
use crate::told::tell;
use pipe_job::read_job;
use pipe_spell::job_line;
use std::alloc::{AllocError, Global};

/// The text of a case's job.
fn text_of(alloc: Global, case: &Case) -> Result<String, AllocError> {
    let Case {
        shows: _,
        version,
        frames,
        plan,
    } = *case;
    format!(in alloc;
        "{{\"workers\":3, \"version\":{version},\n\"row_limit\":100,\"chunk_rows\":2,{frames},{plan}}}"
    )
}

/// Puts the line of the job that a text spells behind the answers.
fn tell_line(alloc: Global, answers: &mut String, text: &str) -> Result<(), AllocError> {
    let Ok(job) = read_job(alloc, text.as_bytes()) else {
        return answers.push_str("no job\n");
    };
    let line = job_line(alloc, &job)?;
    match str::from_utf8(line.as_slice()) {
        Ok(line) => answers.push_str(line),
        Err(_) => answers.push_str("no text\n"),
    }
}

/// What each case shows, and the line of its job.
pub(crate) fn answers(alloc: Global) -> Result<String, AllocError> {
    let mut answers = String::new(alloc);
    for case in CASES {
        tell(&mut answers, case.shows)?;
        let text = text_of(alloc, case)?;
        tell_line(alloc, &mut answers, text.as_str())?;
    }
    Ok(answers)
}
