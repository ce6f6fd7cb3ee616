//! A writer that fails at one of its calls.

use crate::stream::frames::{BLOCK_ROWS, rows, writer};
use pipe_stream::{RowLines, StreamError, stream_frame};
use std::alloc::{AllocError, Global};
use std::sync::Wait;
use std::thread::Threads;

/// Appends how a stream of three blocks of eight bytes ends whose writer fails at a call, and how much was put.
pub(crate) fn tell_failed<T: Threads + Wait + Sync>(
    rt: &T,
    alloc: Global,
    answers: &mut String,
    call: u64,
) -> Result<(), AllocError> {
    let Some(frame) = rows(alloc, 6)? else {
        return answers.push_str("no frame\n");
    };
    if frame.height() > 6 {
        return answers.push_str("too long a frame\n");
    }
    let mut out = writer(alloc, call)?;
    answers.push_str(
        match stream_frame(rt, alloc, &frame, BLOCK_ROWS, &RowLines, &mut out) {
            Ok(_) => "put whole, ",
            Err(StreamError::PutFault) => "PutFault, ",
            Err(StreamError::Memory) => "Memory, ",
        },
    )?;
    answers.push_str(match out.bytes().len() {
        0 => "no block\n",
        8 => "one block\n",
        16 => "two blocks\n",
        24 => "three blocks\n",
        _ => "parts of blocks\n",
    })
}
