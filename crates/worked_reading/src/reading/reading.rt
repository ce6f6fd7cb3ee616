//! What the reader of jobs answers.

use pipe_job::{JobError, read_job};
use std::alloc::{AllocError, Global};

/// The word of the reader's answer to some bytes.
pub(crate) fn outcome(alloc: Global, bytes: &[u8]) -> &'static str {
    match read_job(alloc, bytes) {
        Ok(_) => "read",
        Err(JobError::BadText) => "BadText",
        Err(JobError::BadJob) => "BadJob",
        Err(JobError::Memory) => "Memory",
    }
}

/// A job of this version with these nodes and these frames.
fn job_text(alloc: Global, version: &str, nodes: &str, frames: &str) -> Result<String, AllocError> {
    format!(in alloc;
        "{{\"version\":{version},\"workers\":1,\"chunk_rows\":1,\"row_limit\":1,\"root\":0,\"plan\":[{nodes}],\"frames\":[{frames}]}}"
    )
}

/// The answer to a job of this version with one node.
pub(crate) fn node(alloc: Global, version: &str, node: &str) -> Result<&'static str, AllocError> {
    let text = job_text(alloc, version, node, "")?;
    Ok(outcome(alloc, text.as_bytes()))
}

/// The answer to a job of this version with one frame.
pub(crate) fn frame(alloc: Global, version: &str, frame: &str) -> Result<&'static str, AllocError> {
    let text = job_text(alloc, version, "", frame)?;
    Ok(outcome(alloc, text.as_bytes()))
}

/// Appends a line of what a case shows and its answer.
pub(crate) fn tell_answer(
    answers: &mut String,
    shows: &str,
    answer: &str,
) -> Result<(), AllocError> {
    answers.push_str(shows)?;
    answers.push_str(": ")?;
    answers.push_str(answer)?;
    answers.push_str("\n")
}

const MEMBERS: &str =
    r#"{"version":1,"workers":1,"chunk_rows":1,"row_limit":1,"root":0,"plan":[],"frames":[]"#;

/// How the job ends.
const ENDS: &[(&str, &str)] = &[
    ("a job without nodes and frames", "}"),
    ("a further member", r#","more":0}"#),
    ("a version given again as 3", r#","version":3}"#),
    ("a root given again as null", r#","root":null}"#),
    ("an object that isn't ended", ""),
];

/// The answers to a job that ends in different ways.
pub(crate) fn tell_ends(alloc: Global, answers: &mut String) -> Result<(), AllocError> {
    for (shows, back) in ENDS {
        let text = format!(in alloc; "{MEMBERS}{back}")?;
        tell_answer(answers, shows, outcome(alloc, text.as_bytes()))?;
    }
    Ok(())
}

/// The answers to what is no job at all.
pub(crate) fn tell_no_jobs(alloc: Global, answers: &mut String) -> Result<(), AllocError> {
    tell_answer(answers, "a byte that is no UTF-8", outcome(alloc, &[255]))?;
    tell_answer(answers, "no byte", outcome(alloc, b""))?;
    tell_answer(answers, "an empty list", outcome(alloc, b"[]"))?;
    tell_answer(answers, "null", outcome(alloc, b"null"))?;
    tell_answer(answers, "an empty object", outcome(alloc, b"{}"))
}
