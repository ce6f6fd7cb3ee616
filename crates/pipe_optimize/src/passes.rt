//! A plan with its filters as low as they can stand, and without the columns that nobody needs.

ghost use Rattle.std.specs.Prelude.{◌≡◌, ◌≤◌, ◌+◌, ◌*◌, ℕ, true, map, length, IfOk, IfErr, OnOk};
ghost use Rattle.pipe_schema.specs.Rows.{Same};
ghost use Rattle.pipe_plan.specs.Node.{node_of};
ghost use Rattle.pipe_plan.specs.Plan.{plan_of};
ghost use Rattle.pipe_plan.specs.Under.{node_at};
ghost use Rattle.pipe_plan.specs.Schemas.{schema_of};
ghost use Rattle.pipe_plan.specs.PlanRows.{rows_of};
ghost use Rattle.pipe_plan.specs.Faults.{IsWellFormed};
ghost use Rattle.pipe_rules.specs.Low.{is_sort, AreLow};
ghost use Rattle.pipe_rules.specs.Sorts.{sorting_of};
ghost use Rattle.pipe_rules.specs.Literals.{AddsNoLiteral};
ghost use Rattle.pipe_rules.specs.Sizes.{count_under as nodes_counted, IsTooLarge};
ghost use Rattle.pipe_rules.specs.Grown.{over, AreWithin, AreUnder};
ghost use Rattle.pipe_optimize.specs.Needed.{IsTrimmed};

use crate::full::frames_full;
use crate::trimming::trim;
use pipe_check::CheckedPlan;
use pipe_events::frames_fit;
use pipe_plan::PipeError;
use pipe_rules::{Rewritten, push_filters};
use std::alloc::Global;

/// The plan rewritten over its frames: first each conjunct of each filter goes as low as it may, then each scan is cut to
/// the columns that are needed of it, and each expression and renaming that nobody needs is left out. `TooMany` exactly
/// where more than 2,048 nodes stand under the root.
pub fn optimize(alloc: Global, plan: &CheckedPlan) -> Result<Rewritten, PipeError>
    ensures good { IfOk result (λ made.
        IsWellFormed (over (plan_of plan.now.arena).frames (map node_of made.nodes)) made.root) }
    ensures schema { IfOk result (λ made.
        schema_of (over (plan_of plan.now.arena).frames (map node_of made.nodes)) made.root
        ≡ schema_of (plan_of plan.now.arena) plan.now.root) }
    ensures rows { IfOk result (λ made. Same
        (rows_of (over (plan_of plan.now.arena).frames (map node_of made.nodes)) made.root)
        (rows_of (plan_of plan.now.arena) plan.now.root)) }
    ensures sorted { IfOk result (λ made.
        is_sort (node_at (plan_of plan.now.arena).nodes plan.now.root) ≡ true
        → rows_of (over (plan_of plan.now.arena).frames (map node_of made.nodes)) made.root
        ≡ rows_of (plan_of plan.now.arena) plan.now.root) }
    ensures sorts { IfOk result (λ made.
        is_sort (node_at (plan_of plan.now.arena).nodes plan.now.root) ≡ true
        → sorting_of (node_at (map node_of made.nodes) made.root)
        ≡ sorting_of (node_at (plan_of plan.now.arena).nodes plan.now.root)) }
    ensures literals { IfOk result (λ made.
        AddsNoLiteral (plan_of plan.now.arena).nodes (map node_of made.nodes)) }
    ensures low { IfOk result (λ made.
        AreLow (schema_of (over (plan_of plan.now.arena).frames (map node_of made.nodes)))
        (map node_of made.nodes)) }
    ensures trimmed { IfOk result (λ made.
        IsTrimmed (over (plan_of plan.now.arena).frames (map node_of made.nodes)) made.root) }
    ensures bounded { IfOk result (λ made. (limit : ℕ)
        → AreWithin (plan_of plan.now.arena) plan.now.root limit
        → AreWithin (over (plan_of plan.now.arena).frames (map node_of made.nodes)) made.root limit) }
    ensures whole { IfOk result (λ made. AreUnder (map node_of made.nodes) made.root) }
    ensures few { IfOk result (λ made. length made.nodes
        ≤ 2 * nodes_counted (plan_of plan.now.arena).nodes plan.now.root) }
    ensures small { OnOk result
        (nodes_counted (plan_of plan.now.arena).nodes plan.now.root ≤ 2048) }
    ensures err { IfErr result (IsTooLarge (plan_of plan.now.arena).nodes plan.now.root) }
{
    let pushed = push_filters(alloc, plan)?;
    let frames = plan.arena().frames.as_slice();
    frames_fit(frames);
    frames_full(frames);
    let Rewritten { nodes, root } = pushed;
    let nodes = trim(alloc, frames, nodes, root)?;
    Ok(Rewritten { nodes, root })
}
