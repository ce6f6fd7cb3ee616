//! What each event changes.

ghost use Rattle.std.specs.Prelude.{◌≡◌, ℕ, ◌<◌, true, length, OnOk};
ghost use Rattle.pipe_events.specs.Worlds as worlds;
ghost use Rattle.pipe_events.specs.Worlds.{after};
ghost use Rattle.pipe_events.specs.Decided.{is_allowed as allows};
ghost use Rattle.pipe_world.specs.Staged.{staged};
ghost use Rattle.pipe_world.specs.Shown.{world_of, IsFor};
ghost use Rattle.pipe_events.specs.EventValues.{side_value};
ghost use Rattle.pipe_replay.specs.KeptLists.{AreKept};
ghost use Rattle.pipe_replay.specs.Replayed.{parted, AreBelow};

use crate::closing::side_below;
use crate::emitting::emit;
use crate::flushing::flushed_rows;
use crate::lists::SortedLists;
use crate::marking::{mark_all, mark_all_seen};
use crate::sources::picked_rows;
use pipe_events::Side;
use pipe_frame::Row;
use pipe_rows::KeyHasher;
use pipe_schema::{List, TryClone};
use pipe_world::{Progress, Stage, StagedPlan};
use std::alloc::{AllocError, Global};

/// Positions of a source are taken.
pub(crate) fn take(
    alloc: Global,
    plan: &StagedPlan,
    lists: &mut SortedLists,
    world: &mut Progress,
    worker: u32,
    source: usize,
    from: u32,
    amount: u32,
) -> Result<(), AllocError>
    requires within { source < length world.old.taken }
    requires there { source < length lists.old }
    requires kept { AreKept (staged plan.now) (world_of world.old).bag lists.old }
    ensures world { let event = worlds.Take worker source from amount in
        OnOk result (world_of world.new ≡ after (staged plan.now) (world_of world.old) event) }
    ensures nodes { (n : ℕ) → IsFor n world.old → OnOk result (IsFor n world.new) }
    ensures kept { let bag = (world_of world.old).bag in
        OnOk result (AreKept (staged plan.now) bag lists.new) }
{
    lists.update(alloc, plan, world, source)?;
    let rows = picked_rows(alloc, lists.source_rows(plan, source), from, amount)?;
    world.take(worker, source, from, amount, rows)
}

/// A key is marked at a node.
pub(crate) fn mark(
    alloc: Global,
    plan: &StagedPlan,
    world: &mut Progress,
    worker: u32,
    k: usize,
    key: &Row,
) -> Result<(), AllocError>
    requires within { k < length world.old.flagged }
    ensures world { let event = worlds.Mark worker k key.now in
        OnOk result (world_of world.new ≡ after (staged plan.now) (world_of world.old) event) }
    ensures nodes { (n : ℕ) → IsFor n world.old → OnOk result (IsFor n world.new) }
{
    match plan.stage(k) {
        Stage::Scan(_) => Ok(()),
        Stage::Each { .. } => Ok(()),
        Stage::Union(_) => Ok(()),
        Stage::Sort { .. } => Ok(()),
        Stage::Joined(join) => {
            let mut keys = List::new(alloc);
            keys.push(key.try_clone()?)?;
            mark_all(alloc, plan, world, worker, k, keys.as_slice(), &join)
        }
    }
}

/// All keys that a worker has on its way are marked, and it hands on what it has.
pub(crate) fn finish(
    alloc: Global,
    plan: &StagedPlan,
    world: &mut Progress,
    worker: u32,
) -> Result<(), AllocError>
    requires nodes { IsFor (staged plan.now).size world.old }
    ensures world { let event = worlds.Done worker in
        OnOk result (world_of world.new ≡ after (staged plan.now) (world_of world.old) event) }
    ensures nodes { OnOk result (IsFor (staged plan.now).size world.new) }
{
    mark_all_seen(alloc, plan, world, worker)?;
    emit(alloc, plan, world, worker)
}

/// A side is closed.
pub(crate) fn close(plan: &StagedPlan, world: &mut Progress, n: usize, side: Side)
    requires allowed { let event = worlds.Close n (side_value side) in
        allows (staged plan.now) (world_of world.old) event ≡ true }
    requires below { AreBelow (staged plan.now) }
    requires nodes { IsFor (staged plan.now).size world.old }
    ensures world { let event = worlds.Close n (side_value side) in
        world_of world.new ≡ after (staged plan.now) (world_of world.old) event }
    ensures nodes { IsFor (staged plan.now).size world.new }
{
    if let Some(t) = side_below(plan.stage(n), side) {
        world.close(t as usize);
    }
}

/// A partition is flushed.
pub(crate) fn flush<H: KeyHasher>(
    alloc: Global,
    plan: &StagedPlan,
    hasher: &H,
    world: &mut Progress,
    worker: u32,
    k: usize,
    part: u32,
) -> Result<(), AllocError>
    requires within { k < length world.old.flushed }
    requires parts { 0 < plan.now.parts }
    ensures world { let event = worlds.Flush worker k part in
        let p = parted (H.hash_of hasher.now) plan.now in
        OnOk result (world_of world.new ≡ after p (world_of world.old) event) }
    ensures nodes { (n : ℕ) → IsFor n world.old → OnOk result (IsFor n world.new) }
{
    let rows = flushed_rows(alloc, hasher, plan, world, k, part)?;
    world.flush(alloc, worker, k, part, rows)
}
