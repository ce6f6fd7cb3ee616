//! Whether a list of events is complete.

ghost use Rattle.std.specs.Prelude.{◌≡◌};
ghost use Rattle.pipe_events.specs.Decided.{all_below, is_closed, is_complete as completes};
ghost use Rattle.pipe_world.specs.Staged.{staged};
ghost use Rattle.pipe_world.specs.Shown.{world_of};
ghost use Rattle.pipe_replay.specs.Closing.{spent_at, closed_at};

use crate::closing::side_below;
use crate::spent::is_spent;
use pipe_events::Side;
use pipe_world::{Progress, StagedPlan};

/// Whether the side above a node is closed, if there is one.
fn is_side_closed(world: &Progress, below: Option<u32>) -> bool
    ensures { result ≡ is_closed (world_of world.now) below }
{
    match below {
        None => true,
        Some(t) => world.is_closed(t as usize),
    }
}

/// Whether the sides of a node are closed.
fn are_sides_closed(plan: &StagedPlan, world: &Progress, n: usize) -> bool
    ensures { result ≡ closed_at (staged plan.now) (world_of world.now) n }
{
    let stage = plan.stage(n);
    is_side_closed(world, side_below(stage, Side::Sort))
        && is_side_closed(world, side_below(stage, Side::Build))
        && is_side_closed(world, side_below(stage, Side::Probe))
}

/// Whether each node is spent.
#[tactic(auto, using(crate::proofs::Below::below_rules))]
fn are_all_spent(plan: &StagedPlan, world: &Progress) -> bool
    ensures { let spent = spent_at (staged plan.now) (world_of world.now) in
        result ≡ all_below spent (staged plan.now).size }
{
    for n in 0..plan.len() {
        if !is_spent(plan, world, n) {
            return false;
        }
    }
    true
}

/// Whether each side is closed.
#[tactic(auto, using(crate::proofs::Below::below_rules))]
fn are_all_closed(plan: &StagedPlan, world: &Progress) -> bool
    ensures { let closed = closed_at (staged plan.now) (world_of world.now) in
        result ≡ all_below closed (staged plan.now).size }
{
    for n in 0..plan.len() {
        if !are_sides_closed(plan, world, n) {
            return false;
        }
    }
    true
}

/// Whether all is taken, flushed and closed, and nothing is on its way.
pub fn is_complete(plan: &StagedPlan, world: &Progress) -> bool
    ensures { result ≡ completes (staged plan.now) (world_of world.now) }
{
    are_all_spent(plan, world) && world.pending().is_empty() && are_all_closed(plan, world)
}
