//! Works self-tests out: prints what the three joins of each give, and which words are the numbers of one.

mod runs;
mod words;

use std::alloc::{AllocError, Global};
use std::thread::Threads;

/// What each case shows, and its answer.
pub(crate) fn answers<R: Threads + Sync>(rt: &R, alloc: Global) -> Result<String, AllocError> {
    let mut answers = String::new(alloc);
    runs::tell(rt, alloc, &mut answers)?;
    words::tell(alloc, &mut answers)?;
    Ok(answers)
}
