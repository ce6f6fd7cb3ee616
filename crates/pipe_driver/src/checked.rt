//! The branches of a checked plan, and their texts (the cutting that polars-pipe leaves to another crate of Polars).

ghost use Rattle.std.specs.Prelude.{◌≡◌, IfOk};
ghost use Rattle.pipe_plan.specs.Plan.{plan_of};
ghost use Rattle.pipe_driver.specs.Branches.{branches as branches_of_plan};
ghost use Rattle.pipe_driver.specs.Texts.{texts as texts_of_plan};

use crate::branch::Branch;
use crate::plans::{cut_arena, explain_arena};
use pipe_check::CheckedPlan;
use pipe_schema::{List, Text};
use std::alloc::{AllocError, Global};

/// The branches of a checked plan: pipelines in the order in which they are run, each from a source through operators
/// to the sinks that it feeds. It takes time linear in the plan's nodes and in what the branches hold.
pub fn cut(alloc: Global, plan: &CheckedPlan) -> Result<List<Branch>, AllocError>
    ensures { let checked = plan_of plan.now.arena in
        IfOk result (λ branches. branches ≡ branches_of_plan checked plan.now.root) }
{
    let root = plan.root();
    cut_arena(alloc, plan.arena(), root)
}

/// The texts of a checked plan's branches, one a branch. It takes time linear in the plan's nodes and in the texts.
pub fn explain(alloc: Global, plan: &CheckedPlan) -> Result<List<Text>, AllocError>
    ensures { let checked = plan_of plan.now.arena in
        IfOk result (λ texts. texts ≡ texts_of_plan checked plan.now.root) }
{
    let root = plan.root();
    explain_arena(alloc, plan.arena(), root)
}
