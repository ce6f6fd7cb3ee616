//! Rewrites plans: prints what each case shows, and the nodes of its rewritten plan.

mod answer;
mod large;

use std::alloc::{AllocError, Global};

/// What each case shows, and its answer.
pub(crate) fn answers(alloc: Global, lines: &[&str]) -> Result<String, AllocError> {
    let mut answers = String::new(alloc);
    answer::tell_all(alloc, &mut answers, lines)?;
    large::tell_all(alloc, &mut answers)?;
    Ok(answers)
}
