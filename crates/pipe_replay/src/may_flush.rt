//! Whether a partition may be flushed.

ghost use Rattle.std.specs.Prelude.{◌≡◌, false, IfOk};
ghost use Rattle.pipe_events.specs.Worlds.{at_join};
ghost use Rattle.pipe_events.specs.Decided.{may_flush as flushes_now};
ghost use Rattle.pipe_world.specs.StageValues.{join_value};
ghost use Rattle.pipe_world.specs.Staged.{staged};
ghost use Rattle.pipe_world.specs.Shown.{world_of};

use crate::chains::is_chain_built;
use crate::met_rows::is_flushing;
use pipe_world::{JoinStage, Progress, Stage, StagedPlan, is_among};
use std::alloc::{AllocError, Global};

/// Whether a partition of a join may be flushed.
fn may_flush_join(
    alloc: Global,
    plan: &StagedPlan,
    world: &Progress,
    k: usize,
    part: u32,
    join: &JoinStage,
) -> Result<bool, AllocError>
    ensures { let w = world_of world.now in
        let j = join_value join.now in
        IfOk result (λ may. may ≡ flushes_now (staged plan.now) w k part j) }
{
    if is_flushing(join)
        && world.is_closed(join.probe as usize)
        && part < plan.parts()
        && !is_among(world.flushed(k), u64::from(part))
    {
        is_chain_built(alloc, plan, world, k)
    } else {
        Ok(false)
    }
}

/// Whether a partition of a node may be flushed.
pub(crate) fn may_flush(
    alloc: Global,
    plan: &StagedPlan,
    world: &Progress,
    k: usize,
    part: u32,
) -> Result<bool, AllocError>
    ensures { let test = flushes_now (staged plan.now) (world_of world.now) k part in
        IfOk result (λ may. may ≡ at_join false test ((staged plan.now).stage k)) }
{
    match plan.stage(k) {
        Stage::Scan(_) => Ok(false),
        Stage::Each { .. } => Ok(false),
        Stage::Union(_) => Ok(false),
        Stage::Sort { .. } => Ok(false),
        Stage::Joined(join) => may_flush_join(alloc, plan, world, k, part, &join),
    }
}
