//! The worked frames, in the order in which they are told.

use crate::frames::{
    chunks, columns, copied, copies, names, refusals, rows, series, shared, sizes, stacks, stops,
    wide,
};
use std::alloc::{AllocError, Global};
use std::thread::Threads;

/// What each case shows, and its answer.
pub(crate) fn answers<R: Threads + Sync>(rt: &R, alloc: Global) -> Result<String, AllocError> {
    let mut answers = String::new(alloc);
    refusals::tell(alloc, &mut answers)?;
    rows::tell(alloc, &mut answers)?;
    series::tell(alloc, &mut answers)?;
    columns::tell(alloc, &mut answers)?;
    names::tell(alloc, &mut answers)?;
    wide::tell(alloc, &mut answers)?;
    copies::tell(alloc, &mut answers)?;
    copied::tell(alloc, &mut answers)?;
    shared::tell(alloc, &mut answers)?;
    chunks::tell(rt, alloc, &mut answers)?;
    sizes::tell(alloc, &mut answers)?;
    stacks::tell(alloc, &mut answers)?;
    stops::tell(alloc, &mut answers)?;
    Ok(answers)
}
