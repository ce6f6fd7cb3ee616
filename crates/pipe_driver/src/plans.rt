//! The branches of a well-formed plan, and their texts.

ghost use Rattle.std.specs.Prelude.{◌≡◌, IfOk};
ghost use Rattle.pipe_plan.specs.Plan.{plan_of};
ghost use Rattle.pipe_plan.specs.Faults.{IsWellFormed};
ghost use Rattle.pipe_driver.specs.Branches.{branches as branches_of_plan};
ghost use Rattle.pipe_driver.specs.Texts.{texts as texts_of_plan};

use crate::branch::Branch;
use crate::cutting::cut_nodes;
use crate::texts::texts_of_branches;
use pipe_plan::Arena;
use pipe_schema::{List, Text};
use std::alloc::{AllocError, Global};

/// The branches of a well-formed plan, in time linear in the arena and in what they hold.
pub(crate) fn cut_arena(alloc: Global, arena: &Arena, root: u32) -> Result<List<Branch>, AllocError>
    requires { IsWellFormed (plan_of arena.now) root }
    ensures { IfOk result (λ branches. branches ≡ branches_of_plan (plan_of arena.now) root) }
{
    cut_nodes(alloc, arena.nodes.as_slice(), root)
}

/// The texts of the branches of a well-formed plan, one a branch, in time linear in the arena and in what they hold.
pub(crate) fn explain_arena(
    alloc: Global,
    arena: &Arena,
    root: u32,
) -> Result<List<Text>, AllocError>
    requires { IsWellFormed (plan_of arena.now) root }
    ensures { IfOk result (λ texts. texts ≡ texts_of_plan (plan_of arena.now) root) }
{
    let branches = cut_arena(alloc, arena, root)?;
    texts_of_branches(alloc, arena.nodes.as_slice(), branches.as_slice())
}
