//! How many rows sources have, and which positions of them are taken.

ghost use Rattle.std.specs.Prelude.{◌≡◌, length};
ghost use Rattle.pipe_events.specs.Worlds.{source_rows};
ghost use Rattle.pipe_events.specs.Decided.{all_below, stands_in, is_ready};
ghost use Rattle.pipe_world.specs.StageValues.{stage_value};
ghost use Rattle.pipe_world.specs.Shown.{world_of};
ghost use Rattle.pipe_replay.specs.Sources.{is_fresh};

use pipe_plain::kept_slice;
use pipe_world::{Progress, Stage, is_among};

/// How many rows a source has.
#[tactic(auto, using(crate::proofs::Slices::slice_rules))]
pub(crate) fn source_count(world: &Progress, stage: Stage) -> usize
    ensures { let rows = source_rows (world_of world.now).bag (stage_value stage.entry) in
        result ≡ length rows }
{
    match stage {
        Stage::Scan(rows) => rows.len(),
        Stage::Each { .. } => 0,
        Stage::Union(_) => 0,
        Stage::Sort { input, options, .. } => kept_slice(
            &options.slice,
            world.bag(input as usize),
        ).len(),
        Stage::Joined(_) => 0,
    }
}

/// Whether a stage is a source that has positions: a scan, or a closed sort.
pub(crate) fn is_source_ready(world: &Progress, stage: Stage) -> bool
    ensures { result ≡ is_ready (world_of world.now).closed (stage_value stage.entry) }
{
    match stage {
        Stage::Scan(_) => true,
        Stage::Each { .. } => false,
        Stage::Union(_) => false,
        Stage::Sort { input, .. } => world.is_closed(input as usize),
        Stage::Joined(_) => false,
    }
}

/// Whether none of so many positions of a source, from one on, is taken.
#[tactic(auto, using(crate::proofs::Below::below_rules))]
pub(crate) fn are_fresh(world: &Progress, source: usize, from: u32, amount: u32) -> bool
    ensures { let taken = (world_of world.now).taken source in
        result ≡ all_below (is_fresh taken from) amount }
{
    for i in 0..amount {
        if world.is_taken(source, u64::from(from) + u64::from(i)) {
            return false;
        }
    }
    true
}

/// Whether all positions of a source below a number are taken.
#[tactic(auto, using(crate::proofs::Below::below_rules))]
pub(crate) fn are_all_taken(world: &Progress, source: usize, count: usize) -> bool
    ensures { let taken = (world_of world.now).taken source in
        result ≡ all_below (stands_in taken) count }
{
    for i in 0..count {
        if !world.is_taken(source, i as u64) {
            return false;
        }
    }
    true
}

/// Whether all numbers below another are among some.
#[tactic(auto, using(crate::proofs::Below::below_rules))]
pub(crate) fn are_all_among(numbers: &[u64], count: usize) -> bool
    ensures { result ≡ all_below (stands_in numbers.now) count }
{
    for i in 0..count {
        if !is_among(numbers, i as u64) {
            return false;
        }
    }
    true
}
