//! Frames in JSON.

ghost use Rattle.std.specs.Prelude.{◌≡◌};
ghost use Rattle.std.specs.List.{AllByRecursion};
ghost use Rattle.pipe_value.specs.View.{view};
ghost use Rattle.pipe_job.specs.Reads.{ReadWhere};
ghost use Rattle.pipe_job.specs.Shape.{is_frame, is_table};
ghost use Rattle.pipe_job.specs.Spelling.{list};
ghost use Rattle.pipe_job.specs.FrameSpelling.{column_spelling, ColumnFits, frame_spelling, FrameFits, IsFrameOf};

use crate::members::Members;
use crate::misread::Misread;
use crate::spelled::Spelled;
use pipe_column::Series;
use pipe_frame::DataFrame;
use pipe_schema::{FrameError, List};
use pipe_value::Value;
use std::alloc::Global;

/// The frame of some columns, which scans share.
#[tactic(auto, using(crate::proofs::FrameTests::frame_rules))]
fn frame_of(alloc: Global, columns: Vec<Series>) -> Result<DataFrame, Misread>
    requires { AllByRecursion ColumnFits columns.items }
    ensures { ReadWhere (is_table (list column_spelling columns.items))
        (IsFrameOf columns.items) result }
{
    match DataFrame::new(alloc, columns) {
        Ok(frame) => Ok(frame.shared()?),
        Err(FrameError::Memory) => Err(Misread::Memory),
        Err(_) => Err(Misread::Other),
    }
}

impl Spelled for DataFrame {
    ghost spelling = { frame_spelling };

    ghost fits = { FrameFits };

    ghost shape = { is_frame };

    fn read(alloc: Global, value: &Value) -> Result<DataFrame, Misread> {
        let mut members = Members::of(value)?;
        let columns = members.field::<List<Series>>(alloc, "columns")?;
        members.end()?;
        frame_of(alloc, columns.into_vec())
    }
}
