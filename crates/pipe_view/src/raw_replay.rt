//! Views and their edits as they stand in a value.

ghost use Rattle.pipe_job.specs.FrameSpelling.{FrameFits};
ghost use Rattle.pipe_view.specs.RawReplays.{RawReplayFits, are_two_frames, frames_spelling, is_raw_replay, raw_replay_spelling};

use crate::outline::{Outline, outline_of};
use crate::raw_edit::RawEdit;
use pipe_frame::DataFrame;
use pipe_job::{Misread, Spelled, two_items};
use pipe_plan::IR;
use pipe_schema::List;
use pipe_value::Value;
use std::alloc::Global;

/// The left and the right table.
#[derive(Drop)]
struct TwoFrames {
    left: DataFrame,
    right: DataFrame,
}

impl Spelled for TwoFrames {
    ghost spelling = { λ frames. frames_spelling frames.left frames.right };

    ghost fits = { λ frames. FrameFits frames.left × FrameFits frames.right };

    ghost shape = { are_two_frames };

    fn read(alloc: Global, value: &Value) -> Result<TwoFrames, Misread> {
        let (left, right) = two_items(alloc, value)?;
        let left = DataFrame::read(alloc, left.value())?;
        let right = DataFrame::read(alloc, right.value())?;
        Ok(TwoFrames { left, right })
    }
}

/// Two tables, a node, a limit, a version and edits whose cells have no type yet.
#[derive(Debug, Drop)]
pub struct RawReplay {
    pub version: u32,
    pub row_limit: u32,
    pub left: DataFrame,
    pub right: DataFrame,
    pub join: IR,
    pub edits: List<RawEdit>,
}

impl Spelled for RawReplay {
    ghost spelling = { raw_replay_spelling };

    ghost fits = { RawReplayFits };

    ghost shape = { is_raw_replay };

    #[tactic(auto, using(crate::proofs::Replaying::replay_rules))]
    fn read(alloc: Global, value: &Value) -> Result<RawReplay, Misread> {
        let Outline {
            edits,
            frames,
            join,
            row_limit,
            version,
        } = outline_of(value)?;
        let version = u32::read(alloc, version)?;
        let row_limit = u32::read(alloc, row_limit)?;
        let join = IR::read(alloc, join)?;
        let TwoFrames { left, right } = TwoFrames::read(alloc, frames)?;
        let edits = List::<RawEdit>::read(alloc, edits)?;
        Ok(RawReplay {
            version,
            row_limit,
            left,
            right,
            join,
            edits,
        })
    }
}
