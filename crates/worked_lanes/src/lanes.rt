//! Works lanes out: pieces, counts, refusals, the stop check, and what only several threads show.

mod alone;
mod gates;
mod harness;
mod repeat;
mod threads;
mod told;

use std::alloc::{AllocError, Global};
use std::thread::Threads;

/// What each case shows, and its answer.
pub(crate) fn answers<R: Threads + Sync>(rt: &R, alloc: Global) -> Result<String, AllocError> {
    let mut answers = String::new(alloc);
    alone::tell(rt, alloc, &mut answers)?;
    threads::tell(rt, alloc, &mut answers)?;
    Ok(answers)
}
