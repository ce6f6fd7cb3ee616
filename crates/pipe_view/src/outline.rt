//! The members of a view and its edits.

ghost use Rattle.std.specs.Prelude.{◌≡◌};
ghost use Rattle.pipe_value.specs.View.{view};
ghost use Rattle.pipe_job.specs.Reads.{ReadWhere};
ghost use Rattle.pipe_view.specs.RawReplays.{has_members, outline_data};

use pipe_job::{Members, Misread};
use pipe_value::Value;

/// The values of the members.
#[derive(Drop)]
pub(crate) struct Outline<'a> {
    pub edits: &'a Value,
    pub frames: &'a Value,
    pub join: &'a Value,
    pub row_limit: &'a Value,
    pub version: &'a Value,
}

/// The members of a value that has these and no other.
#[tactic(auto, using(crate::proofs::Outlines::outline_rules))]
pub(crate) fn outline_of(value: &Value) -> Result<Outline<'_>, Misread>
    ensures { ReadWhere (has_members (view value.now))
        (λ o. view value.now ≡ outline_data (view o.edits.now) (view o.frames.now) (view o.join.now)
        (view o.row_limit.now) (view o.version.now)) result }
{
    let mut members = Members::of(value)?;
    let edits = members.take("edits")?;
    let frames = members.take("frames")?;
    let join = members.take("join")?;
    let row_limit = members.take("row_limit")?;
    let version = members.take("version")?;
    members.end()?;
    Ok(Outline {
        edits,
        frames,
        join,
        row_limit,
        version,
    })
}
