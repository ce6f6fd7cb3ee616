//! Lists of events.

ghost use Rattle.std.specs.Prelude.{◌≡◌, ℕ, ◌≤◌, ◌^◌, map, option_map, IfOk, IfSome};
ghost use Rattle.pipe_rows.specs.Partition.{IsPartitionCount};
ghost use Rattle.pipe_plan.specs.Plan.{plan_of};
ghost use Rattle.pipe_plan.specs.PlanRows.{rows_of};
ghost use Rattle.pipe_events.specs.Worlds.{start};
ghost use Rattle.pipe_events.specs.EventValues.{event_value};
ghost use Rattle.pipe_replay.specs.Ends.{HasTheRows};
ghost use Rattle.pipe_replay.specs.KeptWorld.{world_in, stages_for, stages_in, IsOf};
ghost use Rattle.pipe_replay.specs.Replayed.{replayed, IsPlayed};

use crate::world::World;
use pipe_check::CheckedPlan;
use pipe_events::{Event, frames_fit};
use pipe_rows::KeyHasher;
use std::alloc::{AllocError, Global};

/// The world after the first events of a list, so many.
#[derive(Debug, Drop)]
pub struct Played {
    pub world: World,
    pub count: usize,
}

/// Plays events of a plan one after another, up to the first that isn't allowed where it stands. The rows of the root
/// are then among the plan's, and they are the plan's where the world is complete.
pub fn play<H: KeyHasher>(
    alloc: Global,
    plan: &CheckedPlan,
    hasher: &H,
    workers: u32,
    events: &[Event],
) -> Result<Played, AllocError>
    requires { workers ≤ 2 ^ 31 }
    ensures played { let hash_of = H.hash_of hasher.now in
        let list = map event_value events.now in
        IfOk result (λ played. let p = stages_in hash_of plan.now played.world in
        IsPlayed p list (world_in played.world) played.count) }
    ensures rows { let hash_of = H.hash_of hasher.now in
        let rows = rows_of (plan_of plan.now.arena) plan.now.root in
        IfOk result (λ played. let p = stages_in hash_of plan.now played.world in
        HasTheRows p rows (world_in played.world)) }
    ensures plan { IfOk result (λ played. IsOf plan.now played.world) }
    ensures workers { IfOk result (λ played. played.world.workers ≡ workers) }
{
    frames_fit(plan.arena().frames.as_slice());
    let mut world = World::start(alloc, plan, workers)?;
    let count = world.apply_all(alloc, plan, hasher, events)?;
    Ok(Played { world, count })
}

/// The world after a list of events of a plan, none exactly where one of them isn't allowed where it stands. After each
/// list the rows of the root are among the plan's, and after a complete one they are the plan's.
pub fn replay<H: KeyHasher>(
    alloc: Global,
    plan: &CheckedPlan,
    hasher: &H,
    workers: u32,
    events: &[Event],
) -> Result<Option<World>, AllocError>
    requires { workers ≤ 2 ^ 31 }
    ensures world { (parts : ℕ) → IsPartitionCount workers parts →
        let p = stages_for (H.hash_of hasher.now) plan.now workers parts in
        let answer = replayed p start (map event_value events.now) in
        IfOk result (λ world. option_map world_in world ≡ answer) }
    ensures rows { let hash_of = H.hash_of hasher.now in
        let rows = rows_of (plan_of plan.now.arena) plan.now.root in
        IfOk result (λ world. IfSome world (λ w. let p = stages_in hash_of plan.now w in
        HasTheRows p rows (world_in w))) }
    ensures plan { IfOk result (λ world. IfSome world (IsOf plan.now)) }
    ensures workers { IfOk result (λ world. IfSome world (λ w. w.workers ≡ workers)) }
{
    let Played { world, count } = play(alloc, plan, hasher, workers, events)?;
    if count == events.len() {
        Ok(Some(world))
    } else {
        Ok(None)
    }
}
