//! Works checks of plans out: what `check_plan` tells of each, and whether the plain program tells the same.

mod chance;
mod copies;
mod limits;
mod tell;

use std::alloc::{AllocError, Global};

/// What is told of each plan, and how many of the others are told alike.
pub(crate) fn answers(
    alloc: Global,
    plans: &[&str],
    copied: &[&str],
) -> Result<String, AllocError> {
    let mut answers = String::new(alloc);
    tell::tell(alloc, &mut answers, plans)?;
    limits::tell(alloc, &mut answers)?;
    copies::tell(alloc, &mut answers, plans, copied)?;
    chance::tell(alloc, &mut answers)?;
    Ok(answers)
}
