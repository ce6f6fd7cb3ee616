//! Two workers that render at once.

use crate::stream::frames::{BLOCK_ROWS, rows, writer};
use crate::stream::renders::Meeting;
use pipe_schema::MeetGate;
use pipe_stream::stream_frame;
use std::alloc::{AllocError, Global};
use std::sync::Wait;
use std::thread::Threads;

/// Appends whether two workers were in a renderer at once.
pub(crate) fn tell_met<T: Threads + Wait + Sync>(
    rt: &T,
    alloc: Global,
    answers: &mut String,
) -> Result<(), AllocError> {
    let Some(frame) = rows(alloc, 6)? else {
        return answers.push_str("no frame\n");
    };
    if frame.height() > 6 {
        return answers.push_str("too long a frame\n");
    }
    let lines = Meeting {
        gate: MeetGate::new(),
    };
    let mut out = writer(alloc, 0)?;
    let ended = stream_frame(rt, alloc, &frame, BLOCK_ROWS, &lines, &mut out);
    answers.push_str(if ended.is_ok() && lines.gate.met() {
        "two workers rendered at once\n"
    } else {
        "no two workers rendered at once\n"
    })
}
