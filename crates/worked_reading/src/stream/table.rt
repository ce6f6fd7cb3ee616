//! The cases, in the order in which they are told.

use crate::stream::{failing, meeting, orders, refused};
use std::alloc::{AllocError, Global};
use std::sync::Wait;
use std::thread::Threads;

/// What each case shows, and its answer.
pub(crate) fn answers<T: Threads + Wait + Sync>(
    rt: &T,
    alloc: Global,
) -> Result<String, AllocError> {
    let mut answers = String::new(alloc);
    for rows in [0, 1, 2, 3, 6] {
        orders::tell_order(rt, alloc, &mut answers, rows)?;
    }
    meeting::tell_met(rt, alloc, &mut answers)?;
    for call in 1..5 {
        failing::tell_failed(rt, alloc, &mut answers, call)?;
    }
    for row in [0, 2, 5] {
        refused::tell_refused(rt, alloc, &mut answers, row)?;
    }
    Ok(answers)
}
