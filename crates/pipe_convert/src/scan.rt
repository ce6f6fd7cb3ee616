//! The scan of a node.

ghost use Rattle.std.specs.Prelude.{◌≡◌, ◌<◌, length, None, IfOk};
ghost use Rattle.pipe_frame.specs.Frame.{select_fault};
ghost use Rattle.pipe_plan.specs.Node as node;
ghost use Rattle.pipe_plan.specs.Schemas.{frame_at};
ghost use Rattle.pipe_convert.specs.Converted.{IsNode, IsScanOf, IsSourceOf, scanned_table};

use pipe_check::CheckedPlan;
use pipe_frame::DataFrame;
use pipe_schema::{FrameError, List, Text, TryClone};
use pipe_source::DataFrameSource;
use std::alloc::AllocError;

/// The named columns of a frame, copied.
#[tactic(auto, using(crate::proofs::Sources::names_selected))]
fn named_columns(frame: &DataFrame, names: &[Text]) -> Result<DataFrame, AllocError>
    requires { select_fault frame.now.schema names.now ≡ None }
    ensures { IfOk result (λ made. made ≡ scanned_table names.now frame.now) }
{
    let _ = frame.get_columns();
    match frame.select(names) {
        Ok(made) => Ok(made),
        Err(FrameError::Memory) => Err(AllocError),
        Err(_) => unreachable!(),
    }
}

/// The frame of a number.
fn numbered(frames: &[DataFrame], frame: u32) -> &DataFrame
    requires { frame < length frames.now }
    ensures { result.now ≡ frame_at frames.now frame }
{
    &frames[frame as usize]
}

/// The frame of a scan: a copy of its frame, or of the columns that it names.
pub fn scan_frame(
    plan: &CheckedPlan,
    n: u32,
    frame: u32,
    columns: &Option<List<Text>>,
) -> Result<DataFrame, AllocError>
    requires { IsNode plan.now n (node.DataFrameScan frame columns.now) }
    ensures { IfOk result (IsScanOf plan.now n) }
{
    plan.known_well_formed();
    let _ = plan.schema(n).fields();
    let frame = numbered(plan.arena().frames.as_slice(), frame);
    match columns {
        None => Ok(frame.try_clone()?),
        Some(names) => Ok(named_columns(frame, names.as_slice())?),
    }
}

/// The source of a scan.
pub fn scan_source(
    plan: &CheckedPlan,
    n: u32,
    frame: u32,
    columns: &Option<List<Text>>,
) -> Result<DataFrameSource, AllocError>
    requires { IsNode plan.now n (node.DataFrameScan frame columns.now) }
    ensures { IfOk result (IsSourceOf plan.now n) }
{
    let frame = scan_frame(plan, n, frame, columns)?;
    Ok(DataFrameSource::from_df(frame))
}
