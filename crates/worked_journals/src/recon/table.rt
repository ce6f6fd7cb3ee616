//! The lines of all cases.

use crate::recon::cases::CASES;
use crate::recon::told::case_text;
use std::alloc::{AllocError, Global};
use std::thread::Threads;

/// A line a case: its name, and what comes of it.
pub(crate) fn answers<R: Threads + Sync>(rt: &R, alloc: Global) -> Result<String, AllocError> {
    let mut answers = String::new(alloc);
    for case in CASES {
        answers.push_str(case.name)?;
        answers.push_str(": ")?;
        answers.push_str(case_text(rt, alloc, case)?.as_str())?;
        answers.push_str("\n")?;
    }
    Ok(answers)
}
