//! Whether an event is allowed where it stands.

ghost use Rattle.std.specs.Prelude.{◌≡◌, IfOk};
ghost use Rattle.pipe_events.specs.Worlds as worlds;
ghost use Rattle.pipe_events.specs.Decided.{may_take as takes, is_allowed as allows};
ghost use Rattle.pipe_world.specs.Staged.{staged};
ghost use Rattle.pipe_world.specs.Shown.{world_of};
ghost use Rattle.pipe_events.specs.EventValues.{side_value, event_value};

use crate::carried::is_idle;
use crate::chains::is_chain_built;
use crate::closing::{may_close, side_below};
use crate::may_flush::may_flush;
use crate::may_mark::{is_all_marked, may_mark};
use crate::taken_positions::{are_fresh, is_source_ready, source_count};
use pipe_events::{Event, Side};
use pipe_frame::Row;
use pipe_world::{Progress, StagedPlan};
use std::alloc::{AllocError, Global};

/// Whether the positions are there, and not taken.
fn may_take(plan: &StagedPlan, world: &Progress, source: usize, from: u32, amount: u32) -> bool
    ensures { result ≡ takes (staged plan.now) (world_of world.now) source from amount }
{
    let stage = plan.stage(source);
    amount >= 1
        && is_source_ready(world, stage)
        && u64::from(from) + u64::from(amount) <= source_count(world, stage) as u64
        && are_fresh(world, source, from, amount)
}

/// Whether a worker with nothing on its way may take positions of a source.
fn is_take_allowed(
    alloc: Global,
    plan: &StagedPlan,
    world: &Progress,
    worker: u32,
    source: u32,
    from: u32,
    amount: u32,
) -> Result<bool, AllocError>
    ensures { let event = worlds.Take worker source from amount in
        IfOk result (λ holds. holds ≡ allows (staged plan.now) (world_of world.now) event) }
{
    let n = source as usize;
    if worker < plan.workers() && is_idle(worker, world.pending()) && n < plan.len() {
        Ok(may_take(plan, world, n, from, amount) && is_chain_built(alloc, plan, world, n)?)
    } else {
        Ok(false)
    }
}

/// Whether a worker may mark a key at a join.
fn is_mark_allowed(
    alloc: Global,
    plan: &StagedPlan,
    world: &Progress,
    worker: u32,
    join: u32,
    key: &Row,
) -> Result<bool, AllocError>
    ensures { let event = worlds.Mark worker join key.now in
        IfOk result (λ holds. holds ≡ allows (staged plan.now) (world_of world.now) event) }
{
    let k = join as usize;
    if worker < plan.workers() && k < plan.len() {
        may_mark(alloc, plan, world, worker, k, key)
    } else {
        Ok(false)
    }
}

/// Whether a worker may hand on what it has on its way.
fn is_emit_allowed(
    alloc: Global,
    plan: &StagedPlan,
    world: &Progress,
    worker: u32,
) -> Result<bool, AllocError>
    ensures { let event = worlds.Emit worker in
        IfOk result (λ holds. holds ≡ allows (staged plan.now) (world_of world.now) event) }
{
    if worker < plan.workers() && !is_idle(worker, world.pending()) {
        is_all_marked(alloc, plan, world, worker)
    } else {
        Ok(false)
    }
}

/// Whether a worker has something on its way.
fn is_done_allowed(plan: &StagedPlan, world: &Progress, worker: u32) -> bool
    ensures { let event = worlds.Done worker in
        result ≡ allows (staged plan.now) (world_of world.now) event }
{
    worker < plan.workers() && !is_idle(worker, world.pending())
}

/// Whether a side may be closed.
fn is_close_allowed(
    alloc: Global,
    plan: &StagedPlan,
    world: &Progress,
    node: u32,
    side: Side,
) -> Result<bool, AllocError>
    ensures { let event = worlds.Close node (side_value side) in
        IfOk result (λ holds. holds ≡ allows (staged plan.now) (world_of world.now) event) }
{
    let n = node as usize;
    if n < plan.len() {
        match side_below(plan.stage(n), side) {
            None => Ok(false),
            Some(t) => may_close(alloc, plan, world, t as usize),
        }
    } else {
        Ok(false)
    }
}

/// Whether a worker with nothing on its way may flush a partition of a join.
fn is_flush_allowed(
    alloc: Global,
    plan: &StagedPlan,
    world: &Progress,
    worker: u32,
    join: u32,
    part: u32,
) -> Result<bool, AllocError>
    ensures { let event = worlds.Flush worker join part in
        IfOk result (λ holds. holds ≡ allows (staged plan.now) (world_of world.now) event) }
{
    let k = join as usize;
    if worker < plan.workers() && is_idle(worker, world.pending()) && k < plan.len() {
        may_flush(alloc, plan, world, k, part)
    } else {
        Ok(false)
    }
}

/// Whether an event is allowed where it stands.
pub fn is_allowed(
    alloc: Global,
    plan: &StagedPlan,
    world: &Progress,
    event: &Event,
) -> Result<bool, AllocError>
    ensures { let w = world_of world.now in
        IfOk result (λ holds. holds ≡ allows (staged plan.now) w (event_value event.now)) }
{
    match event {
        Event::Take {
            worker,
            source,
            from,
            count,
        } => is_take_allowed(alloc, plan, world, *worker, *source, *from, *count),
        Event::Mark { worker, join, key } => {
            is_mark_allowed(alloc, plan, world, *worker, *join, key)
        }
        Event::Emit { worker } => is_emit_allowed(alloc, plan, world, *worker),
        Event::Done { worker } => Ok(is_done_allowed(plan, world, *worker)),
        Event::Close { node, side } => is_close_allowed(alloc, plan, world, *node, *side),
        Event::Flush { worker, join, part } => {
            is_flush_allowed(alloc, plan, world, *worker, *join, *part)
        }
    }
}
