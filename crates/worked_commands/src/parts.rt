//! The parts of the input, and the cases of a part.

use crate::case::{Case, PLAIN};
use crate::hashed::{tell_hash, tell_hashed};
use crate::jobs::tell_case;
use std::alloc::{AllocError, Global};
use std::sync::Wait;
use std::thread::Threads;

/// The parts: what stands behind the head of the input.
pub(crate) fn parts_of(input: &[u8]) -> &str {
    let text = str::from_utf8(input).unwrap_or("");
    let (_, parts) = text.split_once("\n== ").unwrap_or(("", ""));
    parts
}

/// Appends how the rows of each case of a part compare with those where all keys have this hash.
fn tell_part_hashed<T: Threads + Wait + Sync>(
    rt: &T,
    alloc: Global,
    answers: &mut String,
    base: Case<'_>,
    cases: &str,
    hash: u64,
) -> Result<(), AllocError> {
    tell_hash(alloc, answers, hash)?;
    for block in cases.split("\n-- ") {
        tell_hashed(rt, alloc, answers, base.of(block), hash)?;
    }
    Ok(())
}

/// What each case of a part shows, and its answer.
pub(crate) fn answers<T: Threads + Wait + Sync>(
    rt: &T,
    alloc: Global,
    part: &str,
) -> Result<String, AllocError> {
    let mut answers = String::new(alloc);
    let (head, cases) = part.split_once("\n-- ").unwrap_or((part, ""));
    let base = PLAIN.of(head);
    for block in cases.split("\n-- ") {
        tell_case(rt, alloc, &mut answers, base.of(block))?;
    }
    for hash in base.hashes.split_whitespace() {
        let hash = hash.parse::<u64>().unwrap_or(0);
        tell_part_hashed(rt, alloc, &mut answers, base, cases, hash)?;
    }
    Ok(answers)
}
