//! Frames have columns.

ghost use Rattle.std.specs.Prelude.{◌≡◌, false};
ghost use Rattle.pipe_plan.specs.Faults.{is_empty};
ghost use Rattle.pipe_optimize.specs.Full.{AreFull};

use pipe_frame::DataFrame;

/// A frame has a column.
fn frame_full(frame: &DataFrame)
    ensures { is_empty frame.now.schema ≡ false }
{
    let _ = frame.schema().fields();
}

/// Each frame has a column.
pub(crate) fn frames_full(frames: &[DataFrame])
    ensures { AreFull frames.now }
{
    for frame in frames {
        frame_full(frame);
    }
}
