//! Renderers that wait, or are refused memory.

ghost use Rattle.std.specs.Prelude.{◌≡◌, ◌<◌, [], length, slice_index_or, IfOk};
ghost use Rattle.pipe_job.specs.Line.{row_line};

use crate::stream::frames::BLOCK_ROWS;
use pipe_frame::DataFrame;
use pipe_job::row_line;
use pipe_schema::{Bytes, Gate, MeetGate};
use pipe_stream::Render;
use std::alloc::{AllocError, Global};

/// Renders a row once two workers have come.
#[derive(Drop)]
pub(crate) struct Meeting {
    pub gate: MeetGate,
}

impl Render for Meeting {
    ghost line_of = { λ lines frame i. row_line (slice_index_or frame.rows i []) };

    fn line(&self, alloc: Global, frame: &DataFrame, i: usize) -> Result<Bytes, AllocError>
        requires { i < length frame.now.rows }
        ensures { IfOk result (λ line. line ≡ row_line (slice_index_or frame.now.rows i [])) }
    {
        let block = i / BLOCK_ROWS as usize;
        self.gate.enter(if block % 2 == 0 { 0 } else { 1 });
        row_line(alloc, frame, i)
    }
}

/// Renders all rows but one, at which there is want of memory.
#[derive(Drop)]
pub(crate) struct Refusing {
    pub row: usize,
}

impl Render for Refusing {
    ghost line_of = { λ lines frame i. row_line (slice_index_or frame.rows i []) };

    fn line(&self, alloc: Global, frame: &DataFrame, i: usize) -> Result<Bytes, AllocError>
        requires { i < length frame.now.rows }
        ensures { IfOk result (λ line. line ≡ row_line (slice_index_or frame.now.rows i [])) }
    {
        if i == self.row {
            return Err(AllocError);
        }
        row_line(alloc, frame, i)
    }
}
