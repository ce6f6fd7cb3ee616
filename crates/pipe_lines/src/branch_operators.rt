//! The operators of a branch.

ghost use Rattle.std.specs.Prelude.{◌≤◌, IfOk};
ghost use Rattle.std.specs.List.{AllByRecursion};
ghost use Rattle.pipe_convert.specs.Joins.{AreSpecs};
ghost use Rattle.pipe_lines.specs.Parts.{AreOperatorsAt, IsGoneThrough};

use crate::operator::get_operator;
use pipe_check::CheckedPlan;
use pipe_rows::KeyHasher;
use pipe_slots::PhysOperator;
use pipe_table::JoinSpec;
use std::alloc::{AllocError, Global};
use std::sync::Arc;

/// The operators of nodes.
pub(crate) fn create_operators<H: KeyHasher>(
    alloc: Global,
    plan: &CheckedPlan,
    specs: &[Option<Arc<JoinSpec>>],
    workers: u32,
    nodes: &[u32],
) -> Result<Vec<PhysOperator<H>>, AllocError>
    requires specs { AreSpecs plan.now specs.now }
    requires through { AllByRecursion (IsGoneThrough plan.now) nodes.now }
    requires workers { 1 ≤ workers }
    ensures { IfOk result (λ made. AreOperatorsAt plan.now specs.now nodes.now made.items) }
{
    let mut made = Vec::new(alloc);
    for n in nodes {
        made.push(get_operator(alloc, plan, specs, *n, workers)?)?;
    }
    Ok(made)
}
