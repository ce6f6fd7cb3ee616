//! Works sorts out: prints what each shows, and the rows that it ends with, over two lanes.

mod flags;
mod lanes;
mod many;
mod rows;
mod slices;
mod threads;
mod types;

use std::alloc::{AllocError, Global};
use std::thread::Threads;

/// What each case shows, and its answer.
pub(crate) fn answers<R: Threads + Sync>(rt: &R, alloc: Global) -> Result<String, AllocError> {
    let mut answers = String::new(alloc);
    rows::tell(alloc, &mut answers)?;
    types::tell(alloc, &mut answers)?;
    flags::tell(alloc, &mut answers)?;
    slices::tell(alloc, &mut answers)?;
    many::tell(alloc, &mut answers)?;
    threads::tell(rt, alloc, &mut answers)?;
    Ok(answers)
}
