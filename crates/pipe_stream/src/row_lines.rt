//! The lines of rows as a job's answer has them.

ghost use Rattle.std.specs.Prelude.{◌≡◌, ◌<◌, [], length, slice_index_or, IfOk};
ghost use Rattle.pipe_job.specs.Line.{row_line};

use crate::render::Render;
use pipe_frame::DataFrame;
use pipe_job::row_line;
use pipe_schema::Bytes;
use std::alloc::{AllocError, Global};

/// Renders each row as the array of its cells.
#[derive(Clone, Copy, Debug)]
pub struct RowLines;

impl Render for RowLines {
    ghost line_of = { λ lines frame i. row_line (slice_index_or frame.rows i []) };

    fn line(&self, alloc: Global, frame: &DataFrame, i: usize) -> Result<Bytes, AllocError>
        requires { i < length frame.now.rows }
        ensures { IfOk result (λ line. line ≡ row_line (slice_index_or frame.now.rows i [])) }
    {
        row_line(alloc, frame, i)
    }
}
