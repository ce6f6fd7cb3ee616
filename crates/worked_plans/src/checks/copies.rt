//! Copies of nodes.

use crate::written::plan_of_line;
use pipe_plan::IR;
use std::alloc::{AllocError, Global};

/// How many nodes are copied, and how many aren't.
#[derive(Clone, Copy)]
struct Counts {
    copied: u32,
    missed: u32,
}

const NONE: Counts = Counts {
    copied: 0,
    missed: 0,
};

/// Whether the copy of a node is spelled as the node.
fn is_copied(alloc: Global, node: &IR) -> Result<bool, AllocError> {
    let copy = node.try_clone(alloc)?;
    let spelled = format!(in alloc; "{node:?}")?;
    let copied = format!(in alloc; "{copy:?}")?;
    Ok(spelled.as_str() == copied.as_str())
}

/// So many, and those of the plan of a line.
fn count(alloc: Global, counts: Counts, line: &str) -> Result<Counts, AllocError> {
    let Counts {
        mut copied,
        mut missed,
    } = counts;
    for node in plan_of_line(alloc, line)?.arena.nodes.as_slice() {
        if is_copied(alloc, node)? {
            copied = copied.saturating_add(1);
        } else {
            missed = missed.saturating_add(1);
        }
    }
    Ok(Counts { copied, missed })
}

/// Appends so many.
fn push_counts(alloc: Global, answers: &mut String, counts: Counts) -> Result<(), AllocError> {
    let Counts { copied, missed } = counts;
    answers.push_str(format!(in alloc; "{copied} alike, {missed} not\n")?.as_str())
}

/// Appends how many nodes of the plans are copied, and of each good plan.
pub(crate) fn tell(
    alloc: Global,
    answers: &mut String,
    plans: &[&str],
    good: &[&str],
) -> Result<(), AllocError> {
    answers.push_str("# copies of nodes\n")?;
    let mut counts = NONE;
    for line in plans {
        if !line.starts_with("# ") {
            counts = count(alloc, counts, line)?;
        }
    }
    push_counts(alloc, answers, counts)?;
    for line in good {
        push_counts(alloc, answers, count(alloc, NONE, line)?)?;
    }
    Ok(())
}
