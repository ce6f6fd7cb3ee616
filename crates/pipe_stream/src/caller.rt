//! What the caller does: it takes the messages, and puts the texts as they come.

ghost use Rattle.std.specs.Prelude.{◌≡◌, ◌<◌, ◌^◌, Bool, true, [], length, OnOk};
ghost use Rattle.crossbeam_queue.specs.Passes.{view, IsPassOf};
ghost use Rattle.pipe_stream.specs.Blocks.{Describes, blocks_from, IsBlockOrder};
ghost use Rattle.pipe_stream.specs.Hands.{MayTake};
ghost use Rattle.pipe_stream.specs.Desk.{AllFollow, Standing, Steps, share};

use crate::blocks::Source;
use crate::desk::{put_next, put_rest};
use crate::hands::{Blocks, Line, Seat, Taken};
use crate::message::{Message, News};
use crate::outcome::StreamError;
use crate::progress::Progress;
use crate::render::Lines;
use crate::sink::BlockSink;
use std::alloc::Global;
use std::sync::Wait;
use std::thread;

/// Takes a message, where there is one, and puts its text.
#[tactic(auto, using(crate::proofs::HandLemmas::gets, crate::proofs::DeskLemmas::may_take_on, crate::proofs::StepLemmas::taken_none, crate::proofs::StepLemmas::may_same, crate::proofs::StepLemmas::taken_block, crate::proofs::StepLemmas::block_steps, crate::proofs::StepLemmas::block_fits, crate::proofs::StepLemmas::taken_last, crate::proofs::StepLemmas::last_steps, crate::proofs::StepLemmas::gave_up, crate::proofs::StepLemmas::steps_none))]
fn take_one<J: Blocks, B: BlockSink>(
    line: &Line<J>,
    seat: &mut Seat,
    out: &mut B,
    progress: &mut Progress,
) -> Result<(), StreamError>
    requires count { J.count < 2 ^ 32 }
    requires queue { IsPassOf line.now seat.old }
    requires takes { MayTake (view seat.old) }
    requires standing { Standing J.text J.count progress.old (view seat.old) }
    ensures queue { IsPassOf line.now seat.new }
    ensures takes { MayTake (view seat.new) }
    ensures standing { OnOk result (Standing J.text J.count progress.new (view seat.new)) }
    ensures steps { Steps J.text J.count progress.old.order progress.new.order
        (B.seen out.old) (B.seen out.new) result }
{
    let Some(message) = line.try_pop_as::<Taken>(seat) else {
        thread::yield_now();
        return Ok(());
    };
    let Message { odd, news } = message;
    match news {
        News::Block(number, text) => put_next(out, progress, odd, number, text.as_slice()),
        News::Last(whole) => {
            progress.end(odd);
            if whole {
                Ok(())
            } else {
                Err(StreamError::Memory)
            }
        }
    }
}

/// Takes messages, and puts their texts, until both workers have ended.
#[tactic(auto, using(crate::proofs::StepLemmas::steps_none, crate::proofs::StepLemmas::steps_on, crate::proofs::StepLemmas::steps_end, crate::proofs::StepLemmas::both_over))]
fn take_all<J: Blocks, T: Wait, B: BlockSink>(
    rt: &T,
    line: &Line<J>,
    seat: &mut Seat,
    out: &mut B,
    progress: &mut Progress,
) -> Result<(), StreamError>
    requires count { J.count < 2 ^ 32 }
    requires queue { IsPassOf line.now seat.old }
    requires takes { MayTake (view seat.old) }
    requires standing { Standing J.text J.count progress.old (view seat.old) }
    ensures queue { IsPassOf line.now seat.new }
    ensures takes { MayTake (view seat.new) }
    ensures standing { OnOk result (Standing J.text J.count progress.new (view seat.new)) }
    ensures over { OnOk result
        ((odd : Bool) → (share odd progress.new).started ≡ true
        → (share odd progress.new).ended ≡ true) }
    ensures steps { Steps J.text J.count progress.old.order progress.new.order
        (B.seen out.old) (B.seen out.new) result }
{
    for _ in rt.forever() {
        if !progress.is_running() {
            return Ok(());
        }
        match take_one(line, seat, out, progress) {
            Ok(()) => {}
            Err(error) => return Err(error),
        }
    }
    unreachable!()
}

/// Takes a message, where there is one, and puts nothing.
#[tactic(auto, using(crate::proofs::HandLemmas::gets, crate::proofs::DeskLemmas::may_take_on, crate::proofs::StepLemmas::may_same))]
fn drop_one<J: Blocks>(line: &Line<J>, seat: &mut Seat, progress: &mut Progress)
    requires queue { IsPassOf line.now seat.old }
    requires takes { MayTake (view seat.old) }
    ensures queue { IsPassOf line.now seat.new }
    ensures takes { MayTake (view seat.new) }
{
    let Some(message) = line.try_pop_as::<Taken>(seat) else {
        thread::yield_now();
        return;
    };
    if let News::Last(_) = message.news {
        progress.end(message.odd);
    }
}

/// Takes messages until both workers have ended, and puts nothing.
#[tactic(auto, using(crate::proofs::StepLemmas::both_over))]
fn drop_all<J: Blocks, T: Wait>(rt: &T, line: &Line<J>, seat: &mut Seat, progress: &mut Progress)
    requires queue { IsPassOf line.now seat.old }
    requires takes { MayTake (view seat.old) }
    ensures over { (odd : Bool) → (share odd progress.new).started ≡ true
        → (share odd progress.new).ended ≡ true }
{
    for _ in rt.forever() {
        if !progress.is_running() {
            return;
        }
        drop_one(line, seat, progress);
    }
    unreachable!()
}

/// Renders and puts the blocks of each worker that has no thread.
#[tactic(auto, using(crate::proofs::StepLemmas::over_other, crate::proofs::StepLemmas::whole_order, crate::proofs::StepLemmas::steps_on, crate::proofs::StepLemmas::steps_fail))]
fn put_absent<J: Blocks, R: Lines, B: BlockSink>(
    alloc: Global,
    source: &Source<R>,
    out: &mut B,
    progress: &mut Progress,
) -> Result<(), StreamError>
    requires job { Describes J.text J.count
        (R.line_at source.now.render.now source.now.frame.now)
        (length source.now.frame.now.rows) source.now.block_rows }
    requires count { J.count ≡ source.now.count }
    requires follows { AllFollow J.count progress.old }
    requires over { (odd : Bool) → (share odd progress.old).started ≡ true
        → blocks_from odd (share odd progress.old).next J.count ≡ [] }
    ensures order { OnOk result (IsBlockOrder J.count progress.new.order) }
    ensures steps { Steps J.text J.count progress.old.order progress.new.order
        (B.seen out.old) (B.seen out.new) result }
{
    match put_rest::<J, R, B>(alloc, source, out, progress, false) {
        Ok(()) => put_rest::<J, R, B>(alloc, source, out, progress, true),
        Err(error) => Err(error),
    }
}

/// Takes messages and puts their texts until both workers have ended. After a refusal it puts nothing more, and goes on
/// taking messages, so that no worker waits for room.
#[tactic(auto, using(crate::proofs::StepLemmas::steps_fail))]
fn take_whole<J: Blocks, T: Wait, B: BlockSink>(
    rt: &T,
    line: &Line<J>,
    seat: &mut Seat,
    out: &mut B,
    progress: &mut Progress,
) -> Result<(), StreamError>
    requires count { J.count < 2 ^ 32 }
    requires queue { IsPassOf line.now seat.old }
    requires takes { MayTake (view seat.old) }
    requires standing { Standing J.text J.count progress.old (view seat.old) }
    ensures standing { OnOk result (Standing J.text J.count progress.new (view seat.new)) }
    ensures over { (odd : Bool) → (share odd progress.new).started ≡ true
        → (share odd progress.new).ended ≡ true }
    ensures steps { Steps J.text J.count progress.old.order progress.new.order
        (B.seen out.old) (B.seen out.new) result }
{
    match take_all(rt, line, seat, out, progress) {
        Ok(()) => Ok(()),
        Err(error) => {
            drop_all(rt, line, seat, progress);
            Err(error)
        }
    }
}

/// Takes messages and puts their texts until both workers have ended, and then the blocks of one that has no thread.
#[tactic(auto, using(crate::proofs::DeskLemmas::all_follow, crate::proofs::StepLemmas::over_both, crate::proofs::StepLemmas::steps_on, crate::proofs::StepLemmas::steps_fail))]
pub(crate) fn attend<J: Blocks, T: Wait, R: Lines, B: BlockSink>(
    rt: &T,
    alloc: Global,
    line: &Line<J>,
    seat: &mut Seat,
    source: &Source<R>,
    out: &mut B,
    progress: &mut Progress,
) -> Result<(), StreamError>
    requires job { Describes J.text J.count
        (R.line_at source.now.render.now source.now.frame.now)
        (length source.now.frame.now.rows) source.now.block_rows }
    requires count { (J.count ≡ source.now.count) × (J.count < 2 ^ 32) }
    requires queue { IsPassOf line.now seat.old }
    requires takes { MayTake (view seat.old) }
    requires standing { Standing J.text J.count progress.old (view seat.old) }
    ensures order { OnOk result (IsBlockOrder J.count progress.new.order) }
    ensures steps { Steps J.text J.count progress.old.order progress.new.order
        (B.seen out.old) (B.seen out.new) result }
{
    match take_whole(rt, line, seat, out, progress) {
        Ok(()) => put_absent::<J, R, B>(alloc, source, out, progress),
        Err(error) => Err(error),
    }
}
