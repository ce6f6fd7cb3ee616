//! Events applied where they stand.

ghost use Rattle.std.specs.Prelude.{◌≡◌, ◌<◌, true, map, if◌then◌else◌, IfOk, OnOk};
ghost use Rattle.pipe_events.specs.Worlds.{start, after};
ghost use Rattle.pipe_events.specs.Decided.{is_allowed as allows};
ghost use Rattle.pipe_world.specs.Staged.{staged};
ghost use Rattle.pipe_world.specs.Shown.{world_of, IsFor};
ghost use Rattle.pipe_events.specs.EventValues.{event_value};
ghost use Rattle.pipe_replay.specs.KeptLists.{AreKept};
ghost use Rattle.pipe_replay.specs.Replayed.{parted, AreBelow, IsPlayed};

use crate::allowed::is_allowed;
use crate::changing::{close, finish, flush, mark, take};
use crate::emitting::emit;
use crate::lists::SortedLists;
use pipe_events::Event;
use pipe_rows::KeyHasher;
use pipe_world::{Progress, StagedPlan};
use std::alloc::{AllocError, Global};

/// What an allowed event changes.
fn apply<H: KeyHasher>(
    alloc: Global,
    plan: &StagedPlan,
    hasher: &H,
    lists: &mut SortedLists,
    world: &mut Progress,
    event: &Event,
) -> Result<(), AllocError>
    requires allowed { let w = world_of world.old in
        allows (staged plan.now) w (event_value event.now) ≡ true }
    requires nodes { IsFor (staged plan.now).size world.old }
    requires parts { 0 < plan.now.parts }
    requires below { AreBelow (staged plan.now) }
    requires kept { AreKept (staged plan.now) (world_of world.old).bag lists.old }
    ensures world { let p = parted (H.hash_of hasher.now) plan.now in
        let w = after p (world_of world.old) (event_value event.now) in
        OnOk result (world_of world.new ≡ w) }
    ensures nodes { OnOk result (IsFor (staged plan.now).size world.new) }
    ensures kept { let bag = (world_of world.old).bag in
        OnOk result (AreKept (staged plan.now) bag lists.new) }
{
    match event {
        Event::Take {
            worker,
            source,
            from,
            count,
        } => take(
            alloc,
            plan,
            lists,
            world,
            *worker,
            *source as usize,
            *from,
            *count,
        ),
        Event::Mark { worker, join, key } => {
            mark(alloc, plan, world, *worker, *join as usize, key)
        }
        Event::Emit { worker } => emit(alloc, plan, world, *worker),
        Event::Done { worker } => finish(alloc, plan, world, *worker),
        Event::Close { node, side } => {
            close(plan, world, *node as usize, *side);
            Ok(())
        }
        Event::Flush { worker, join, part } => {
            flush(alloc, plan, hasher, world, *worker, *join as usize, *part)
        }
    }
}

/// Applies an event where it is allowed, and tells whether it is. The lists of the plan's sorts are kept for the next.
pub(crate) fn apply_where_allowed<H: KeyHasher>(
    alloc: Global,
    plan: &StagedPlan,
    hasher: &H,
    lists: &mut SortedLists,
    world: &mut Progress,
    event: &Event,
) -> Result<bool, AllocError>
    requires nodes { IsFor (staged plan.now).size world.old }
    requires parts { 0 < plan.now.parts }
    requires below { AreBelow (staged plan.now) }
    requires kept { AreKept (staged plan.now) (world_of world.old).bag lists.old }
    ensures allowed { let p = parted (H.hash_of hasher.now) plan.now in
        let holds = allows p (world_of world.old) (event_value event.now) in
        IfOk result (λ allowed. allowed ≡ holds) }
    ensures world { let p = parted (H.hash_of hasher.now) plan.now in
        let w = world_of world.old in
        let holds = allows p w (event_value event.now) in
        let next = if holds then after p w (event_value event.now) else w in
        OnOk result (world_of world.new ≡ next) }
    ensures nodes { OnOk result (IsFor (staged plan.now).size world.new) }
    ensures kept { OnOk result (AreKept (staged plan.now) (world_of world.new).bag lists.new) }
{
    let allowed = is_allowed(alloc, plan, world, event)?;
    if !allowed {
        return Ok(allowed);
    }
    apply(alloc, plan, hasher, lists, world, event)?;
    Ok(allowed)
}

/// Applies events one after another, up to the first that isn't allowed where it stands; tells how many these are.
pub(crate) fn apply_while_allowed<H: KeyHasher>(
    alloc: Global,
    plan: &StagedPlan,
    hasher: &H,
    lists: &mut SortedLists,
    world: &mut Progress,
    events: &[Event],
) -> Result<usize, AllocError>
    requires start { world_of world.old ≡ start }
    requires nodes { IsFor (staged plan.now).size world.old }
    requires parts { 0 < plan.now.parts }
    requires below { AreBelow (staged plan.now) }
    requires kept { AreKept (staged plan.now) (world_of world.old).bag lists.old }
    ensures played { let p = parted (H.hash_of hasher.now) plan.now in
        let list = map event_value events.now in
        IfOk result (λ count. IsPlayed p list (world_of world.new) count) }
    ensures nodes { OnOk result (IsFor (staged plan.now).size world.new) }
    ensures kept { OnOk result (AreKept (staged plan.now) (world_of world.new).bag lists.new) }
{
    for (count, event) in events.iter().enumerate() {
        let allowed = apply_where_allowed(alloc, plan, hasher, lists, world, event)?;
        if !allowed {
            return Ok(count);
        }
    }
    Ok(events.len())
}
