//! Whether the build sides on the chain of a node are closed.

ghost use Rattle.std.specs.Prelude.{◌≡◌, false, IfOk};
ghost use Rattle.pipe_events.specs.Decided.{chain_built};
ghost use Rattle.pipe_plain.specs.Tables.{at_place};
ghost use Rattle.pipe_world.specs.Staged.{staged};
ghost use Rattle.pipe_world.specs.Shown.{world_of};
ghost use Rattle.pipe_replay.specs.Joins.{join_passes, built_if_reached};

use pipe_world::{Progress, Stage, StagedPlan, is_marked, reach_marks};
use std::alloc::{AllocError, Global};

/// Whether the build side of a join is closed where its probe side is marked.
fn is_build_closed(marks: &[bool], world: &Progress, plan: &StagedPlan, k: usize) -> bool
    ensures { let closed = (world_of world.now).closed in
        let test = built_if_reached (at_place false marks.now) closed in
        result ≡ join_passes (staged plan.now) test k }
{
    match plan.stage(k) {
        Stage::Scan(_) => true,
        Stage::Each { .. } => true,
        Stage::Union(_) => true,
        Stage::Sort { .. } => true,
        Stage::Joined(join) => {
            !is_marked(marks, join.probe as usize) || world.is_closed(join.build as usize)
        },
    }
}

/// Whether each join on the chain of a node has its build side closed.
#[tactic(auto, using(crate::proofs::Below::below_rules, crate::proofs::Reaching::reach_rules))]
pub(crate) fn is_chain_built(
    alloc: Global,
    plan: &StagedPlan,
    world: &Progress,
    n: usize,
) -> Result<bool, AllocError>
    ensures { let closed = (world_of world.now).closed in
        IfOk result (λ built. built ≡ chain_built (staged plan.now) closed n) }
{
    let marks = reach_marks(alloc, plan, n)?;
    let reached = marks.as_slice();
    for k in 0..plan.len() {
        if !is_build_closed(reached, world, plan, k) {
            return Ok(false);
        }
    }
    Ok(true)
}
