//! What a worker does: it renders its blocks in order, and sends each.

ghost use Rattle.std.specs.Prelude.{◌≡◌, ◌<◌, ◌+◌, ◌∷◌, [], true, length, OnOk};
ghost use Rattle.crossbeam_queue.specs.Passes.{view, IsPassOf, IsSamePass};
ghost use Rattle.pipe_stream.specs.Blocks.{Describes};
ghost use Rattle.pipe_stream.specs.Messages.{script, last_of};
ghost use Rattle.pipe_stream.specs.Hands.{MaySend, sent, worker};

use crate::blocks::{Source, block_text, is_of};
use crate::hands::{Blocks, Line, Seat, Sent};
use crate::message::{Message, News};
use crate::render::Lines;
use std::alloc::{AllocError, Global};
use std::sync::Wait;
use std::thread;

/// Sends a message, and waits while the queue is full.
fn send<J: Blocks, T: Wait>(rt: &T, line: &Line<J>, seat: &mut Seat, message: Message)
    requires queue { IsPassOf line.now seat.old }
    requires rule { MaySend message (view seat.old) }
    ensures queue { IsPassOf line.now seat.new }
    ensures rule { view seat.new ≡ sent message (view seat.old) }
{
    let mut waiting = message;
    for _ in rt.forever() {
        match line.try_push_as::<Sent>(seat, waiting) {
            Ok(()) => return,
            Err(back) => {
                waiting = back;
                thread::yield_now();
            }
        }
    }
    unreachable!()
}

/// Renders and sends a block, where it is one of the worker's.
#[tactic(auto, using(crate::proofs::WorkLemmas::within_job, crate::proofs::WorkLemmas::may_send_block, crate::proofs::WorkLemmas::sent_block, crate::proofs::WorkLemmas::passed_block))]
fn send_block<J: Blocks, T: Wait, R: Lines>(
    rt: &T,
    alloc: Global,
    line: &Line<J>,
    seat: &mut Seat,
    source: &Source<R>,
    odd: bool,
    number: u32,
) -> Result<(), AllocError>
    requires job { Describes J.text J.count
        (R.line_at source.now.render.now source.now.frame.now)
        (length source.now.frame.now.rows) source.now.block_rows }
    requires number { number < J.count }
    requires queue { IsPassOf line.now seat.old }
    requires hand { view seat.old ≡ worker odd (script J.text J.count odd number) }
    ensures queue { IsPassOf line.now seat.new }
    ensures ok { OnOk result (view seat.new ≡ worker odd (script J.text J.count odd (number + 1))) }
{
    if is_of(odd, number) {
        let text = block_text(alloc, source, number)?;
        let news = News::Block(number, text);
        send(rt, line, seat, Message { odd, news });
    }
    Ok(())
}

/// Renders and sends all blocks of a worker.
#[tactic(auto, using(crate::proofs::WorkLemmas::all_sent))]
fn send_blocks<J: Blocks, T: Wait, R: Lines>(
    rt: &T,
    alloc: Global,
    line: &Line<J>,
    seat: &mut Seat,
    source: &Source<R>,
    odd: bool,
) -> Result<(), AllocError>
    requires job { Describes J.text J.count
        (R.line_at source.now.render.now source.now.frame.now)
        (length source.now.frame.now.rows) source.now.block_rows }
    requires count { J.count ≡ source.now.count }
    requires queue { IsPassOf line.now seat.old }
    requires hand { view seat.old ≡ worker odd (script J.text J.count odd 0) }
    ensures queue { IsPassOf line.now seat.new }
    ensures ok { OnOk result (view seat.new ≡ worker odd (last_of odd true ∷ [])) }
{
    for number in 0..source.count {
        send_block(rt, alloc, line, seat, source, odd, number)?;
    }
    Ok(())
}

/// Renders and sends all blocks of a worker, and then that it has ended.
#[tactic(auto, using(crate::proofs::WorkLemmas::may_send_last))]
pub(crate) fn work<J: Blocks, T: Wait, R: Lines>(
    rt: &T,
    alloc: Global,
    line: &Line<J>,
    mut seat: Seat,
    source: &Source<R>,
    odd: bool,
)
    requires job { Describes J.text J.count
        (R.line_at source.now.render.now source.now.frame.now)
        (length source.now.frame.now.rows) source.now.block_rows }
    requires count { J.count ≡ source.now.count }
    requires queue { IsPassOf line.now seat }
    requires hand { view seat ≡ worker odd (script J.text J.count odd 0) }
{
    let whole = send_blocks(rt, alloc, line, &mut seat, source, odd).is_ok();
    let news = News::Last(whole);
    send(rt, line, &mut seat, Message { odd, news });
}
