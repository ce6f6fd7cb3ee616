//! The reader of views and their edits.

ghost use Rattle.std.specs.Prelude.{◌≡◌, false, IfNone, IfOk, IfSome, IsErrOf};
ghost use Rattle.pipe_value.specs.View.{view};
ghost use Rattle.pipe_job.specs.Reading.{ReadsNothing};
ghost use Rattle.pipe_plan.specs.Node.{node_of};
ghost use Rattle.pipe_view.specs.ReplaySpelling.{ReadsNoReplay, ReadsParts, ReadsReplay, ReplayTask, Spells, joins_both, kept_node, replay_task};

use crate::raw_replay::RawReplay;
use crate::replay::{KeptJoin, Replay};
use crate::rows::edits_of;
use crate::versions::replay_has_int128;
use pipe_job::{JobError, Misread, Spelled, read_value};
use pipe_plan::IR;
use pipe_value::Value;
use std::alloc::{AllocError, Global};

/// The join of nodes 0 and 1 that a node is.
fn join_of_both(node: IR) -> Option<KeptJoin>
    ensures none { IfNone result (joins_both (node_of node) ≡ false) }
    ensures some { IfSome result (λ join. node_of node ≡ kept_node join) }
{
    match node {
        IR::Join {
            left,
            right,
            left_on,
            right_on,
            options,
        } => if left == 0 && right == 1 {
            Some(KeptJoin {
                left_on,
                right_on,
                options,
            })
        } else {
            None
        },
        _ => None,
    }
}

/// The view and its edits that a value spells. Whether the types are those of the version isn't looked at here.
#[tactic(auto, using(crate::proofs::Unread::parts_rules))]
fn parts_of(alloc: Global, value: &Value) -> Result<Replay, Misread>
    ensures { ReadsParts (view value.now) result }
{
    let RawReplay {
        version,
        row_limit,
        left,
        right,
        join,
        edits,
    } = RawReplay::read(alloc, value)?;
    if version != 1 && version != 2 {
        return Err(Misread::Other);
    }
    let Some(join) = join_of_both(join) else {
        return Err(Misread::Other);
    };
    let edits = edits_of(
        alloc,
        left.schema().fields(),
        right.schema().fields(),
        edits,
    )?;
    Ok(Replay {
        version,
        row_limit,
        left,
        right,
        join,
        edits,
    })
}

/// The view and its edits that a value spells, none exactly where it spells none.
pub fn replay_of(alloc: Global, value: &Value) -> Result<Option<Replay>, AllocError>
    ensures found { IfOk result (λ found. IfSome found (λ r. Spells (view value.now) (replay_task r))) }
    ensures none { IfOk result
        (λ found. IfNone found ((task : ReplayTask) → Spells (view value.now) task → ⊥)) }
{
    match parts_of(alloc, value) {
        Ok(replay) => if replay.version == 1 && replay_has_int128(&replay) {
            Ok(None)
        } else {
            Ok(Some(replay))
        },
        Err(Misread::Other) => Ok(None),
        Err(Misread::Memory) => Err(AllocError),
    }
}

/// The view and its edits that bytes spell. `BadText` where they are no JSON text, `BadJob` exactly where the value
/// read spells none.
pub fn read_replay(alloc: Global, bytes: &[u8]) -> Result<Replay, JobError>
    ensures replay { IfOk result (λ r. ReadsReplay bytes.now (replay_task r)) }
    ensures bad_text { IsErrOf result JobError.BadText → ReadsNothing bytes.now }
    ensures bad_replay { IsErrOf result JobError.BadJob → ReadsNoReplay bytes.now }
{
    let value = read_value(alloc, bytes)?;
    match replay_of(alloc, &value) {
        Ok(Some(replay)) => Ok(replay),
        Ok(None) => Err(JobError::BadJob),
        Err(_) => Err(JobError::Memory),
    }
}
