//! Works out what threads share: prints how flags are marked, numbers are drawn and a gate is passed, by one thread and
//! by two.

mod claiming;
mod gate;
mod marking;

use std::alloc::{AllocError, Global};
use std::thread::Threads;

/// What each case shows, and its answer.
pub(crate) fn answers<R: Threads + Sync>(rt: &R, alloc: Global) -> Result<String, AllocError> {
    let mut answers = String::new(alloc);
    marking::tell(rt, alloc, &mut answers)?;
    claiming::tell(rt, alloc, &mut answers)?;
    gate::tell(rt, alloc, &mut answers)?;
    Ok(answers)
}
