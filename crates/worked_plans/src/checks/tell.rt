//! What is told of a plan: its fault, or the names of its columns.

use crate::alike::is_told_alike;
use crate::lines::{fault_line, head_line};
use crate::written::plan_of_line;
use pipe_check::check_plan;
use pipe_plan::Arena;
use std::alloc::{AllocError, Global};
use worked_builders::BuiltPlan;

/// What `check_plan` tells of a plan.
pub(crate) fn told(alloc: Global, arena: &Arena, root: u32) -> Result<String, AllocError> {
    match check_plan(alloc, arena, root) {
        Ok(plan) => head_line(alloc, plan.schema(plan.root()).fields()),
        Err(fault) => fault_line(alloc, &fault),
    }
}

/// Appends what is told of a plan, and whether the plain program tells something else.
fn tell_plan(alloc: Global, answers: &mut String, plan: &BuiltPlan) -> Result<(), AllocError> {
    answers.push_str(told(alloc, &plan.arena, plan.root)?.as_str())?;
    if plan.arena.nodes.len() < 4294967296 && !is_told_alike(alloc, &plan.arena, plan.root)? {
        answers.push_str("the plain program tells something else\n")?;
    }
    Ok(())
}

/// Appends what each plan shows, and what is told of it.
pub(crate) fn tell(alloc: Global, answers: &mut String, lines: &[&str]) -> Result<(), AllocError> {
    for line in lines {
        if line.starts_with("# ") {
            answers.push_str(line)?;
            answers.push_str("\n")?;
        } else {
            tell_plan(alloc, answers, &plan_of_line(alloc, line)?)?;
        }
    }
    Ok(())
}
