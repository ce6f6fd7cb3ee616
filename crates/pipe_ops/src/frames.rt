//! Frames of columns that were made for one schema.

ghost use Rattle.std.specs.Prelude.{◌≡◌, map, IfOk};
ghost use Rattle.pipe_column.specs.Columns.{AllOfHeight, field_of, height_of};
ghost use Rattle.pipe_frame.specs.Frame.{table_of};
ghost use Rattle.pipe_schema.specs.Schema.{IsSchema};

use pipe_column::Series;
use pipe_frame::DataFrame;
use pipe_schema::FrameError;
use std::alloc::{AllocError, Global};

/// The frame of columns of one height with distinct names.
#[tactic(auto, using(crate::proofs::MadeColumns::no_fault))]
pub fn frame_of(alloc: Global, columns: Vec<Series>) -> Result<DataFrame, AllocError>
    requires fields { IsSchema (map field_of columns.items) }
    requires even { AllOfHeight (height_of columns.items) columns.items }
    ensures { IfOk result (λ frame. frame ≡ table_of columns.items (height_of columns.items)) }
{
    match DataFrame::new(alloc, columns) {
        Ok(frame) => Ok(frame),
        Err(FrameError::Memory) => Err(AllocError),
        Err(_) => unreachable!(),
    }
}
