//! A frame written block by block, in an order in which each worker's blocks ascend.

ghost use Rattle.std.specs.Prelude.{◌≡◌, ◌≤◌, ◌<◌, length, flat_map, IfOk, OnErr, IsErrOf};
ghost use Rattle.pipe_stream.specs.Outside.{WriteFails, Writes};
ghost use Rattle.pipe_stream.specs.Blocks.{block_count, block_text, Describes, IsBlockOrder, PutsFront};
ghost use Rattle.pipe_stream.specs.Desk.{Streamed};

use crate::blocks::{Source, block_count};
use crate::hands::{Blocks, Line, ToEven, ToOdd};
use crate::outcome::{Report, StreamError};
use crate::render::{Lines, Render};
use crate::scope::{Caller, beside};
use crate::sink::BlockSink;
use pipe_frame::DataFrame;
use std::alloc::Global;
use std::marker::Brand;
use std::sync::Wait;
use std::thread::Threads;

/// How many messages the queue holds at most.
const CAPACITY: usize = 4;

/// What was lent is back.
fn take_back<B>(out: &mut B)
    ensures { out.new ≡ out.old }
{}

/// Streams the blocks that a call picked.
#[tactic(auto, using(crate::proofs::StreamLemmas::streamed_none))]
fn stream_blocks<J: Blocks + Send + Sync, T: Threads + Wait + Sync, R: Lines + Sync, B: BlockSink>(
    rt: &T,
    alloc: Global,
    source: &Source<R>,
    out: &mut B,
) -> Result<Report, StreamError>
    requires job { Describes J.text J.count
        (R.line_at source.now.render.now source.now.frame.now)
        (length source.now.frame.now.rows) source.now.block_rows }
    requires count { J.count ≡ source.now.count }
    ensures { Streamed J.text J.count (B.seen out.old) (B.seen out.new) result }
{
    let (queue, mut seat) = match Line::<J>::ruled(alloc, CAPACITY) {
        Ok(made) => made,
        Err(_) => return Err(StreamError::Memory),
    };
    let line = &queue;
    let even_seat = line.another::<ToEven>(&mut seat);
    let odd_seat = line.another::<ToOdd>(&mut seat);
    let caller = Caller {
        rt,
        alloc,
        line,
        seat,
        source,
        out,
    };
    let (back, result) = beside(rt, alloc, line, even_seat, odd_seat, source, caller);
    take_back(back);
    result
}

/// Puts a frame to a sink, in blocks of so many rows, each as the text of its rows' lines.
///
/// Two threads render the blocks, the even ones and the odd ones, and this one puts each text as it comes; where a
/// thread can't be started, this one renders its blocks too, after the others. So the blocks come in an order in which
/// the even ones ascend and the odd ones ascend, and the report tells which. After a refusal a front of the texts in
/// such an order is put.
///
/// It may wait for its workers, and what it promises holds once it returns.
pub fn stream_frame<T: Threads + Wait + Sync, R: Render, B: BlockSink>(
    rt: &T,
    alloc: Global,
    frame: &DataFrame,
    block_rows: u32,
    render: &R,
    out: &mut B,
) -> Result<Report, StreamError>
    requires rows { 0 < block_rows }
    requires height { length frame.now.rows ≤ 4294967294 }
    ensures order { IfOk result (λ report.
        IsBlockOrder (block_count (length frame.now.rows) block_rows) report.order) }
    ensures put { IfOk result (λ report. Writes
        (flat_map (block_text (R.line_of render.now frame.now) (length frame.now.rows) block_rows)
        report.order)
        (B.seen out.old) (B.seen out.new)) }
    ensures front { OnErr result (PutsFront
        (block_text (R.line_of render.now frame.now) (length frame.now.rows) block_rows)
        (block_count (length frame.now.rows) block_rows) (B.seen out.old) (B.seen out.new)) }
    ensures fault { IsErrOf result StreamError.PutFault
        → WriteFails (B.seen out.old) (B.seen out.new) }
    ensures faults { (B.seen out.old).faults ≤ (B.seen out.new).faults }
{
    let count = block_count(frame.height(), block_rows);
    let source = Source {
        frame,
        render,
        block_rows,
        count,
    };
    stream_blocks::<Brand, T, R, B>(rt, alloc, &source, out)
}
