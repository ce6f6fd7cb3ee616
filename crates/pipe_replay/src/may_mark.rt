//! Whether a key may be marked, and whether marks are owed.

ghost use Rattle.std.specs.Prelude.{◌≡◌, false, not, IfOk};
ghost use Rattle.std.specs.List.{list_any};
ghost use Rattle.pipe_events.specs.Stages.{marks};
ghost use Rattle.pipe_events.specs.Worlds.{at_join, seen};
ghost use Rattle.pipe_events.specs.Decided.{all_below, implies};
ghost use Rattle.pipe_world.specs.StageValues.{join_value};
ghost use Rattle.pipe_world.specs.Staged.{staged};
ghost use Rattle.pipe_world.specs.Shown.{world_of};
ghost use Rattle.pipe_replay.specs.Carried.{tables_of, gathered};
ghost use Rattle.pipe_replay.specs.Joins.{join_passes, owes_none, marks_seen};
ghost use Rattle.pipe_replay.specs.MetRows.{owes_flag};

use crate::carried::{carried_rows, carried_tables, gathered_rows};
use crate::met_rows::{is_any_flag_owed, is_marking, is_seen};
use pipe_frame::Row;
use pipe_schema::List;
use pipe_world::{JoinStage, Progress, Stage, StagedPlan};
use std::alloc::{AllocError, Global};

/// Whether what a worker has on its way matches a key at a join.
fn is_key_seen(
    alloc: Global,
    plan: &StagedPlan,
    world: &Progress,
    worker: u32,
    join: &JoinStage,
    key: &Row,
) -> Result<bool, AllocError>
    ensures { let w = world_of world.now in
        let j = join_value join.now in
        IfOk result (λ holds. holds ≡ seen (staged plan.now) worker w j key.now) }
{
    let come = carried_rows(alloc, plan, world, worker, join.probe as usize)?;
    is_seen(
        alloc,
        join,
        come.as_slice(),
        key,
        world.bag(join.build as usize),
    )
}

/// Whether a worker may mark a key at a node.
pub(crate) fn may_mark(
    alloc: Global,
    plan: &StagedPlan,
    world: &Progress,
    worker: u32,
    k: usize,
    key: &Row,
) -> Result<bool, AllocError>
    ensures { let w = world_of world.now in
        let test = marks_seen (staged plan.now) w worker key.now in
        IfOk result (λ may. may ≡ at_join false test ((staged plan.now).stage k)) }
{
    match plan.stage(k) {
        Stage::Scan(_) => Ok(false),
        Stage::Each { .. } => Ok(false),
        Stage::Union(_) => Ok(false),
        Stage::Sort { .. } => Ok(false),
        Stage::Joined(join) => {
            if is_marking(&join) {
                is_key_seen(alloc, plan, world, worker, &join, key)
            } else {
                Ok(false)
            }
        }
    }
}

/// Whether no mark is owed at a join.
fn is_none_owed(
    alloc: Global,
    world: &Progress,
    tables: &[List<List<Row>>],
    k: usize,
    join: &JoinStage,
) -> Result<bool, AllocError>
    ensures { let w = world_of world.now in
        let come = gathered tables.now join.now.probe in
        let j = join_value join.now in
        let owed = list_any (owes_flag (w.flag k) j come) (w.bag join.now.build) in
        IfOk result (λ none. none ≡ implies (marks j) (not owed)) }
{
    if !is_marking(join) {
        return Ok(true);
    }
    let come = gathered_rows(alloc, tables, join.probe as usize)?;
    let bag = world.bag(join.build as usize);
    Ok(!is_any_flag_owed(alloc, world, k, join, come.as_slice(), bag)?)
}

/// Whether no mark is owed at a node.
#[tactic(auto, using(crate::proofs::CarriedLemmas::carried_rules))]
fn is_none_owed_at(
    alloc: Global,
    plan: &StagedPlan,
    world: &Progress,
    worker: u32,
    tables: &[List<List<Row>>],
    k: usize,
) -> Result<bool, AllocError>
    requires { tables.now ≡ tables_of (staged plan.now) (world_of world.now) worker }
    ensures { let test = owes_none (staged plan.now) (world_of world.now) worker in
        IfOk result (λ none. none ≡ join_passes (staged plan.now) test k) }
{
    match plan.stage(k) {
        Stage::Scan(_) => Ok(true),
        Stage::Each { .. } => Ok(true),
        Stage::Union(_) => Ok(true),
        Stage::Sort { .. } => Ok(true),
        Stage::Joined(join) => is_none_owed(alloc, world, tables, k, &join),
    }
}

/// Whether no mark is owed for what a worker has on its way.
#[tactic(auto, using(crate::proofs::Below::below_rules))]
pub(crate) fn is_all_marked(
    alloc: Global,
    plan: &StagedPlan,
    world: &Progress,
    worker: u32,
) -> Result<bool, AllocError>
    ensures { let test = owes_none (staged plan.now) (world_of world.now) worker in
        let passes = join_passes (staged plan.now) test in
        IfOk result (λ marked. marked ≡ all_below passes (staged plan.now).size) }
{
    let tables = carried_tables(alloc, plan, world, worker)?;
    let flows = tables.as_slice();
    for k in 0..plan.len() {
        if !is_none_owed_at(alloc, plan, world, worker, flows, k)? {
            return Ok(false);
        }
    }
    Ok(true)
}
