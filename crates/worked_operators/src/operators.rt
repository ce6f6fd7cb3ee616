//! Works operators out: prints what each shows, and what it gives for a chunk.

mod cases;
mod filters;
mod numbers;
mod planned;
mod told;
mod written;

use std::alloc::{AllocError, Global};

pub(crate) fn answers(alloc: Global) -> Result<String, AllocError> {
    let mut answers = String::new(alloc);
    answers.push_str(filters::positive(alloc)?.as_str())?;
    answers.push_str(numbers::chunk_sizes(alloc)?.as_str())?;
    answers.push_str(numbers::split_pieces(alloc)?.as_str())?;
    answers.push_str(numbers::joined_pieces(alloc)?.as_str())?;
    answers.push_str(cases::lines(alloc)?.as_str())?;
    Ok(answers)
}
