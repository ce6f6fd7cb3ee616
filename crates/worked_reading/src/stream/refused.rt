//! A worker that is refused memory.

use crate::stream::frames::{BLOCK_ROWS, rows, writer};
use crate::stream::renders::Refusing;
use pipe_stream::{StreamError, stream_frame};
use std::alloc::{AllocError, Global};
use std::sync::Wait;
use std::thread::Threads;

/// Appends how a stream ends that is refused memory at a row, and that whole blocks were put.
pub(crate) fn tell_refused<T: Threads + Wait + Sync>(
    rt: &T,
    alloc: Global,
    answers: &mut String,
    row: usize,
) -> Result<(), AllocError> {
    let Some(frame) = rows(alloc, 6)? else {
        return answers.push_str("no frame\n");
    };
    if frame.height() > 6 {
        return answers.push_str("too long a frame\n");
    }
    let mut out = writer(alloc, 0)?;
    let lines = Refusing { row };
    answers.push_str(
        match stream_frame(rt, alloc, &frame, BLOCK_ROWS, &lines, &mut out) {
            Ok(_) => "put whole, ",
            Err(StreamError::PutFault) => "PutFault, ",
            Err(StreamError::Memory) => "Memory, ",
        },
    )?;
    answers.push_str(if out.bytes().len() % 8 == 0 {
        "whole blocks\n"
    } else {
        "parts of blocks\n"
    })
}
