//! Whether a side may be closed.

ghost use Rattle.std.specs.Prelude.{◌≡◌, IfOk};
ghost use Rattle.std.specs.List.{list_any};
ghost use Rattle.pipe_events.specs.Stages.{reaches};
ghost use Rattle.pipe_events.specs.Worlds.{sort_side, join_side, side_below as side_of};
ghost use Rattle.pipe_events.specs.Decided.{all_below, is_quiet as quiet_at, may_close as closes};
ghost use Rattle.pipe_world.specs.StageValues.{join_value, stage_value};
ghost use Rattle.pipe_world.specs.Staged.{staged};
ghost use Rattle.pipe_world.specs.Shown.{world_of};
ghost use Rattle.pipe_events.specs.EventValues.{side_value};
ghost use Rattle.pipe_replay.specs.Closing.{is_coming, spent_if_coming};
ghost use Rattle.pipe_replay.specs.Joins.{join_passes, built_if_probed};

use crate::met_rows::is_flushing;
use crate::spent::is_spent;
use pipe_events::Side;
use pipe_world::{JoinStage, Load, Progress, Stage, StagedPlan, is_marked, reach_marks};
use std::alloc::{AllocError, Global};

/// Whether the rows of a node come to another.
#[tactic(auto, using(crate::proofs::Reaching::reach_rules))]
fn is_reaching(alloc: Global, plan: &StagedPlan, n: usize, t: usize) -> Result<bool, AllocError>
    ensures { IfOk result (λ comes. comes ≡ reaches (staged plan.now) n t) }
{
    let marks = reach_marks(alloc, plan, n)?;
    Ok(is_marked(marks.as_slice(), t))
}

/// Whether one of some loads comes to a node.
fn is_any_coming(
    alloc: Global,
    plan: &StagedPlan,
    loads: &[Load],
    t: usize,
) -> Result<bool, AllocError>
    ensures { IfOk result (λ comes. comes ≡ list_any (is_coming (staged plan.now) t) loads.now) }
{
    for load in loads {
        if is_reaching(alloc, plan, load.node(), t)? {
            return Ok(true);
        }
    }
    Ok(false)
}

/// Whether a node is spent, if its rows come to another.
fn is_spent_if_coming(
    alloc: Global,
    plan: &StagedPlan,
    world: &Progress,
    t: usize,
    m: usize,
) -> Result<bool, AllocError>
    ensures { let w = world_of world.now in
        IfOk result (λ spent. spent ≡ spent_if_coming (staged plan.now) w t m) }
{
    if is_reaching(alloc, plan, m, t)? {
        Ok(is_spent(plan, world, m))
    } else {
        Ok(true)
    }
}

/// Whether all that comes to a node is spent.
#[tactic(auto, using(crate::proofs::Below::below_rules))]
fn are_coming_spent(
    alloc: Global,
    plan: &StagedPlan,
    world: &Progress,
    t: usize,
) -> Result<bool, AllocError>
    ensures { let spent = spent_if_coming (staged plan.now) (world_of world.now) t in
        IfOk result (λ all. all ≡ all_below spent (staged plan.now).size) }
{
    for m in 0..plan.len() {
        if !is_spent_if_coming(alloc, plan, world, t, m)? {
            return Ok(false);
        }
    }
    Ok(true)
}

/// Whether all that comes to a node is spent, and nothing on its way comes to it.
fn is_quiet(
    alloc: Global,
    plan: &StagedPlan,
    world: &Progress,
    t: usize,
) -> Result<bool, AllocError>
    ensures { let w = world_of world.now in
        IfOk result (λ quiet. quiet ≡ quiet_at (staged plan.now) w t) }
{
    if are_coming_spent(alloc, plan, world, t)? {
        Ok(!is_any_coming(alloc, plan, world.pending(), t)?)
    } else {
        Ok(false)
    }
}

/// Whether the build side of a join is closed where its probe side is above a node.
fn is_probe_built(world: &Progress, t: usize, plan: &StagedPlan, k: usize) -> bool
    ensures { let test = built_if_probed t (world_of world.now).closed in
        result ≡ join_passes (staged plan.now) test k }
{
    match plan.stage(k) {
        Stage::Scan(_) => true,
        Stage::Each { .. } => true,
        Stage::Union(_) => true,
        Stage::Sort { .. } => true,
        Stage::Joined(join) => join.probe as usize != t || world.is_closed(join.build as usize),
    }
}

/// Whether each join whose probe side is above a node has its build side closed.
#[tactic(auto, using(crate::proofs::Below::below_rules))]
fn are_probes_built(world: &Progress, t: usize, plan: &StagedPlan) -> bool
    ensures { let test = built_if_probed t (world_of world.now).closed in
        result ≡ all_below (join_passes (staged plan.now) test) (staged plan.now).size }
{
    for k in 0..plan.len() {
        if !is_probe_built(world, t, plan, k) {
            return false;
        }
    }
    true
}

/// Whether the side above a node may be closed.
pub(crate) fn may_close(
    alloc: Global,
    plan: &StagedPlan,
    world: &Progress,
    t: usize,
) -> Result<bool, AllocError>
    ensures { let w = world_of world.now in
        IfOk result (λ may. may ≡ closes (staged plan.now) w t) }
{
    if world.is_closed(t) {
        return Ok(false);
    }
    if is_quiet(alloc, plan, world, t)? {
        Ok(are_probes_built(world, t, plan))
    } else {
        Ok(false)
    }
}

/// The node below a side of a join that can be closed.
fn side_of_join(join: &JoinStage, side: Side) -> Option<u32>
    ensures { result ≡ join_side (join_value join.now) (side_value side) }
{
    match side {
        Side::Sort => None,
        Side::Build => Some(join.build),
        Side::Probe => {
            if is_flushing(join) {
                Some(join.probe)
            } else {
                None
            }
        }
    }
}

/// The node below the side of a sort.
fn side_of_sort(input: u32, side: Side) -> Option<u32>
    ensures { result ≡ sort_side input (side_value side) }
{
    match side {
        Side::Sort => Some(input),
        Side::Build | Side::Probe => None,
    }
}

/// The node below a side that can be closed.
pub fn side_below(stage: Stage, side: Side) -> Option<u32>
    ensures { result ≡ side_of (stage_value stage.entry) (side_value side) }
{
    match stage {
        Stage::Scan(_) => None,
        Stage::Each { .. } => None,
        Stage::Union(_) => None,
        Stage::Sort { input, .. } => side_of_sort(input, side),
        Stage::Joined(join) => side_of_join(&join, side),
    }
}
