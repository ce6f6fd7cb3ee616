//! What a worker hands on.

ghost use Rattle.std.specs.Prelude.{◌≡◌, ℕ, ◌<◌, length, OnOk};
ghost use Rattle.pipe_events.specs.Worlds.{ends, is_sink, emitted};
ghost use Rattle.pipe_world.specs.StageValues.{stage_value};
ghost use Rattle.pipe_world.specs.Staged.{staged};
ghost use Rattle.pipe_world.specs.Shown.{world_of, IsFor};
ghost use Rattle.pipe_replay.specs.Carried.{gathered};
ghost use Rattle.pipe_replay.specs.Sinks.{filled};

use crate::carried::{carried_tables, gathered_rows};
use pipe_frame::Row;
use pipe_schema::List;
use pipe_world::{Progress, Stage, StagedPlan};
use std::alloc::{AllocError, Global};

/// Whether a stage has the sink above a node.
fn is_end(stage: Stage, t: usize) -> bool
    ensures { result ≡ ends (stage_value stage.entry) t }
{
    match stage {
        Stage::Scan(_) => false,
        Stage::Each { .. } => false,
        Stage::Union(_) => false,
        Stage::Sort { input, .. } => input as usize == t,
        Stage::Joined(join) => join.build as usize == t,
    }
}

/// Whether there is a sink above a node: of the root, of a sort, or of a build side.
#[tactic(auto, using(pipe_plain::proofs::Ranges::range_rules))]
fn has_sink(plan: &StagedPlan, t: usize) -> bool
    ensures { result ≡ is_sink (staged plan.now) t }
{
    if plan.root() as usize == t {
        return true;
    }
    for n in 0..plan.len() {
        if is_end(plan.stage(n), t) {
            return true;
        }
    }
    false
}

/// Adds what comes to a node to its sink, if it has one.
fn fill_sink(
    alloc: Global,
    plan: &StagedPlan,
    world: &mut Progress,
    tables: &[List<List<Row>>],
    t: usize,
) -> Result<(), AllocError>
    requires within { t < length world.old.bags }
    ensures world { let filling = filled (staged plan.now) (gathered tables.now) t in
        OnOk result (world_of world.new ≡ filling (world_of world.old)) }
    ensures nodes { (n : ℕ) → IsFor n world.old → OnOk result (IsFor n world.new) }
{
    if has_sink(plan, t) {
        let rows = gathered_rows(alloc, tables, t)?;
        world.fill(t, rows.as_slice())
    } else {
        Ok(())
    }
}

/// Hands on what a worker has on its way.
#[tactic(auto, using(crate::proofs::FilledLemmas::emit_rules))]
pub(crate) fn emit(
    alloc: Global,
    plan: &StagedPlan,
    world: &mut Progress,
    worker: u32,
) -> Result<(), AllocError>
    requires nodes { IsFor (staged plan.now).size world.old }
    ensures world { let after = emitted (staged plan.now) worker (world_of world.old) in
        OnOk result (world_of world.new ≡ after) }
    ensures nodes { OnOk result (IsFor (staged plan.now).size world.new) }
{
    let tables = carried_tables(alloc, plan, world, worker)?;
    let flows = tables.as_slice();
    for t in 0..plan.len() {
        fill_sink(alloc, plan, world, flows, t)?;
    }
    world.hand_on(worker);
    Ok(())
}
