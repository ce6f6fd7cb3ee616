//! Jobs one after another.

use crate::answer::answer_to;
use std::alloc::Global;
use std::io::{self, BufRead, Read, Write};

/// The number on the next line, none where there is no more.
fn next_length(alloc: Global, input: &mut impl BufRead) -> io::Result<Option<usize>> {
    let mut line = String::new(alloc);
    input.read_line(&mut line)?;
    Ok(line.trim().parse::<usize>().ok())
}

/// The next bytes, so many.
fn next_bytes(alloc: Global, input: &mut impl BufRead, length: usize) -> io::Result<Vec<u8>> {
    let mut bytes = Vec::new(alloc);
    bytes.resize(length, 0)?;
    input.read_exact(bytes.as_mut_slice())?;
    Ok(bytes)
}

/// Writes the answer to a job.
fn answer_next(alloc: Global, out: &mut impl Write, bytes: &[u8]) -> io::Result<()> {
    let told = answer_to(alloc, bytes)?;
    let head = format!(in alloc; "{} {}\n", told.status, told.text.len())?;
    out.write_all(head.as_bytes())?;
    out.write_all(told.text.as_slice())
}

/// Answers each job, up to the end of the input or a line that is no number.
pub(crate) fn answer_each(
    alloc: Global,
    input: &mut impl BufRead,
    out: &mut impl Write,
) -> io::Result<()> {
    for _ in 0..u64::MAX {
        let Some(length) = next_length(alloc, input)? else {
            return Ok(());
        };
        let bytes = next_bytes(alloc, input, length)?;
        answer_next(alloc, out, bytes.as_slice())?;
    }
    Ok(())
}
