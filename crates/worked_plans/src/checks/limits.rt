//! Arenas of as many nodes as there may be, and of one more.

use crate::checks::tell::told;
use pipe_plan::{Arena, IR};
use std::alloc::{AllocError, Global};
use worked_builders::WrittenNode::Scan;
use worked_builders::plan_of;
use worked_columns::{INT, WrittenColumn};

const K: &[WrittenColumn] = &[("k", INT, &["1"])];

/// An arena of so many scans of one frame.
fn scans(alloc: Global, count: u32) -> Result<Arena, AllocError> {
    let built = plan_of(alloc, &[Scan(K)])?;
    let mut arena = built.arena;
    for _ in 1..count {
        arena.nodes.push(IR::DataFrameScan {
            frame: 0,
            columns: None,
        })?;
    }
    Ok(arena)
}

/// Appends what is told of so many scans.
fn tell_scans(alloc: Global, answers: &mut String, count: u32) -> Result<(), AllocError> {
    let arena = scans(alloc, count)?;
    answers.push_str(format!(in alloc; "# {count} scans\n")?.as_str())?;
    answers.push_str(told(alloc, &arena, 0)?.as_str())
}

/// Appends what is told of each.
pub(crate) fn tell(alloc: Global, answers: &mut String) -> Result<(), AllocError> {
    tell_scans(alloc, answers, 4096)?;
    tell_scans(alloc, answers, 4097)
}
