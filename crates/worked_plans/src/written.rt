//! Plans as they are written: each a job in one line, or the word of one that no job spells.

use crate::misfits::misfit_of;
use pipe_job::Job;
use pipe_plan::Arena;
use pipe_schema::List;
use std::alloc::{AllocError, Global};
use std::mem::swap;
use worked_builders::{BuiltPlan, plan_of};
use worked_texts::job_of;

/// The plan of a job.
fn plan_of_job(alloc: Global, mut job: Job) -> BuiltPlan {
    let mut arena = Arena {
        nodes: List::new(alloc),
        frames: List::new(alloc),
    };
    swap(&mut arena, &mut job.arena);
    BuiltPlan {
        arena,
        root: job.root,
    }
}

/// The plan that a line writes. A line that writes none gives the plan of no node.
pub(crate) fn plan_of_line(alloc: Global, line: &str) -> Result<BuiltPlan, AllocError> {
    match job_of(alloc, line)? {
        Some(job) => Ok(plan_of_job(alloc, job)),
        None => plan_of(alloc, misfit_of(line)),
    }
}
