//! The gate at which two workers meet.

use pipe_schema::{Gate, MeetGate};
use std::alloc::{AllocError, Global};
use std::thread::{Threads, join};

/// Appends whether two threads met at a gate, before they come and behind it.
pub(crate) fn tell<R: Threads + Sync>(
    rt: &R,
    alloc: Global,
    answers: &mut String,
) -> Result<(), AllocError> {
    let gate = MeetGate::new();
    let before = gate.met();
    join(rt, || gate.enter(0), || gate.enter(1));
    let after = gate.met();
    answers.push_str("# two threads meet at the gate\n")?;
    answers.push_str(format!(in alloc; "before: {before}; after: {after}\n")?.as_str())
}
