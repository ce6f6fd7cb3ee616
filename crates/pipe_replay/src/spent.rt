//! Whether a node has given all it has.

ghost use Rattle.std.specs.Prelude.{◌≡◌};
ghost use Rattle.pipe_world.specs.Staged.{staged};
ghost use Rattle.pipe_world.specs.Shown.{world_of};
ghost use Rattle.pipe_replay.specs.Closing.{spent_at};

use crate::met_rows::is_flushing;
use crate::taken_positions::{are_all_among, are_all_taken};
use pipe_plain::kept_slice;
use pipe_world::{Progress, Stage, StagedPlan};

/// Whether a source has all its positions taken, and a join that flushes all its partitions flushed.
#[tactic(auto, using(crate::proofs::Slices::slice_rules))]
pub(crate) fn is_spent(plan: &StagedPlan, world: &Progress, n: usize) -> bool
    ensures { result ≡ spent_at (staged plan.now) (world_of world.now) n }
{
    match plan.stage(n) {
        Stage::Scan(rows) => are_all_taken(world, n, rows.len()),
        Stage::Each { .. } => true,
        Stage::Union(_) => true,
        Stage::Sort { input, options, .. } => {
            let kept = kept_slice(&options.slice, world.bag(input as usize)).len();
            world.is_closed(input as usize) && are_all_taken(world, n, kept)
        }
        Stage::Joined(join) => {
            !is_flushing(&join) || are_all_among(world.flushed(n), plan.parts() as usize)
        }
    }
}
