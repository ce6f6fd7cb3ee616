//! Frames of no row, of one, of a block and of one row more.

use crate::stream::frames::{BLOCK_ROWS, rows, writer};
use pipe_frame::DataFrame;
use pipe_stream::{Report, RowLines, stream_frame};
use std::alloc::{AllocError, Global};
use std::sync::Wait;
use std::thread::Threads;

/// Appends the numbers of one worker's blocks in an order.
fn push_share(answers: &mut String, report: &Report, rest: u32) -> Result<(), AllocError> {
    for number in report.order.as_slice() {
        if *number % 2 == rest {
            answers.push_str(match *number {
                0 => " 0",
                1 => " 1",
                2 => " 2",
                _ => " more",
            })?;
        }
    }
    Ok(())
}

/// The lines of a block's rows.
fn push_block(
    alloc: Global,
    text: &mut Vec<u8>,
    frame: &DataFrame,
    number: u32,
) -> Result<(), AllocError> {
    for row in 0..frame.height() {
        if row / BLOCK_ROWS as usize == number as usize {
            text.extend_from_slice(pipe_job::row_line(alloc, frame, row)?.as_slice())?;
        }
    }
    Ok(())
}

/// Whether a text is that of the blocks in an order.
fn is_told(
    alloc: Global,
    text: &[u8],
    frame: &DataFrame,
    report: &Report,
) -> Result<bool, AllocError> {
    let mut told = Vec::new(alloc);
    for number in report.order.as_slice() {
        push_block(alloc, &mut told, frame, *number)?;
    }
    Ok(told.as_slice() == text)
}

/// Appends in which order the blocks of a frame of so many rows come.
pub(crate) fn tell_order<T: Threads + Wait + Sync>(
    rt: &T,
    alloc: Global,
    answers: &mut String,
    count: usize,
) -> Result<(), AllocError> {
    let Some(frame) = rows(alloc, count)? else {
        return answers.push_str("no frame\n");
    };
    if frame.height() > 6 {
        return answers.push_str("too long a frame\n");
    }
    let mut out = writer(alloc, 0)?;
    match stream_frame(rt, alloc, &frame, BLOCK_ROWS, &RowLines, &mut out) {
        Ok(report) => {
            answers.push_str("even")?;
            push_share(answers, &report, 0)?;
            answers.push_str(" odd")?;
            push_share(answers, &report, 1)?;
            answers.push_str(if is_told(alloc, out.bytes(), &frame, &report)? {
                ", put in this order\n"
            } else {
                ", put in another order\n"
            })
        }
        Err(_) => answers.push_str("refused\n"),
    }
}
