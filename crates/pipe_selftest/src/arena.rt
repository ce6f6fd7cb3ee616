//! The plan of a self-test.

ghost use Rattle.std.specs.Prelude.{◌≡◌, ◌≤◌, IfOk, OnOk};
ghost use Rattle.pipe_plan.specs.Faults.{IsWellFormed};
ghost use Rattle.pipe_plan.specs.Plan.{plan_of};
ghost use Rattle.pipe_selftest.specs.Joins.{full_root, inner_root, left_root, plan_from};

use crate::frames::frames;
use crate::joins::nodes;
use pipe_plan::Arena;
use std::alloc::{AllocError, Global};

/// The plan of a self-test: the scans 0 and 1 under the inner join 2, 3 and 4 under the left join 5, 6 and 7 under the
/// full join 8. No root of these is refused.
#[tactic(auto, using(crate::proofs::Formed::inner_formed, crate::proofs::Formed::left_formed, crate::proofs::Formed::full_formed), unfolding(crate::specs::Joins::plan_from))]
pub fn selftest_arena(alloc: Global, start: u64, rows: u32) -> Result<Arena, AllocError>
    requires some { 1 ≤ rows }
    requires few { rows ≤ 1000000 }
    ensures plan { IfOk result (λ arena. plan_of arena ≡ plan_from start rows) }
    ensures inner { OnOk result (IsWellFormed (plan_from start rows) inner_root) }
    ensures left { OnOk result (IsWellFormed (plan_from start rows) left_root) }
    ensures full { OnOk result (IsWellFormed (plan_from start rows) full_root) }
{
    let frames = frames(alloc, start, rows)?;
    let nodes = nodes(alloc, rows)?;
    Ok(Arena { nodes, frames })
}
