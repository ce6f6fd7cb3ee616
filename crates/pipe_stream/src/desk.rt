//! The texts of blocks are put, one after another, and their numbers noted.

ghost use Rattle.std.specs.Prelude.{◌≡◌, ◌<◌, ◌+◌, ◌^◌, [], true, length, OnOk};
ghost use Rattle.pipe_stream.specs.Blocks.{Describes, blocks_from, is_of};
ghost use Rattle.pipe_stream.specs.Desk.{AllFollow, Puts, Reaches, Rests, Steps, share};

use crate::blocks::{Source, block_text, is_of};
use crate::hands::Blocks;
use crate::outcome::StreamError;
use crate::progress::{Progress, Share};
use crate::render::Lines;
use crate::sink::{BlockSink, PutFailed};
use std::alloc::Global;

/// Puts the text of a worker's next block.
#[tactic(auto, using(crate::proofs::StepLemmas::puts_none, crate::proofs::StepLemmas::puts_all, crate::proofs::StepLemmas::puts_front))]
pub(crate) fn put_next<B: BlockSink>(
    out: &mut B,
    progress: &mut Progress,
    odd: bool,
    number: u32,
    text: &[u8],
) -> Result<(), StreamError>
    requires { number + 1 < 2 ^ 32 }
    ensures { Puts text.now odd number progress.old progress.new
        (B.seen out.old) (B.seen out.new) result }
{
    if progress.order.push(number).is_err() {
        return Err(StreamError::Memory);
    }
    let share = progress.share(odd);
    let next = number + 1;
    progress.set_share(odd, Share { next, ..share });
    match out.put(text) {
        Ok(()) => Ok(()),
        Err(PutFailed) => Err(StreamError::PutFault),
    }
}

/// Renders and puts a block of a worker that has no thread.
#[tactic(auto, using(crate::proofs::StepLemmas::own_memory, crate::proofs::StepLemmas::own_steps, crate::proofs::StepLemmas::own_reaches, crate::proofs::StepLemmas::number_fits, crate::proofs::WorkLemmas::within_job))]
fn render_next<J: Blocks, R: Lines, B: BlockSink>(
    alloc: Global,
    source: &Source<R>,
    out: &mut B,
    progress: &mut Progress,
    odd: bool,
    number: u32,
) -> Result<(), StreamError>
    requires job { Describes J.text J.count
        (R.line_at source.now.render.now source.now.frame.now)
        (length source.now.frame.now.rows) source.now.block_rows }
    requires number { number < J.count }
    requires own { is_of odd number ≡ true }
    requires next { (share odd progress.old).next ≡ number }
    requires follows { AllFollow J.count progress.old }
    ensures reaches { OnOk result (Reaches J.count odd (number + 1) progress.old progress.new) }
    ensures steps { Steps J.text J.count progress.old.order progress.new.order
        (B.seen out.old) (B.seen out.new) result }
{
    match block_text(alloc, source, number) {
        Ok(text) => put_next(out, progress, odd, number, text.as_slice()),
        Err(_) => Err(StreamError::Memory),
    }
}

/// Passes a number of the blocks of a worker that has no thread: where it is one of them, it is rendered and put.
#[tactic(auto, using(crate::proofs::StepLemmas::skip_reaches, crate::proofs::StepLemmas::skip_steps, crate::proofs::StepLemmas::number_fits))]
fn put_own<J: Blocks, R: Lines, B: BlockSink>(
    alloc: Global,
    source: &Source<R>,
    out: &mut B,
    progress: &mut Progress,
    odd: bool,
    number: u32,
) -> Result<(), StreamError>
    requires job { Describes J.text J.count
        (R.line_at source.now.render.now source.now.frame.now)
        (length source.now.frame.now.rows) source.now.block_rows }
    requires number { number < J.count }
    requires next { (share odd progress.old).next ≡ number }
    requires follows { AllFollow J.count progress.old }
    ensures reaches { OnOk result (Reaches J.count odd (number + 1) progress.old progress.new) }
    ensures steps { Steps J.text J.count progress.old.order progress.new.order
        (B.seen out.old) (B.seen out.new) result }
{
    if is_of(odd, number) {
        return render_next::<J, R, B>(alloc, source, out, progress, odd, number);
    }
    let share = progress.share(odd);
    let next = number + 1;
    progress.set_share(odd, Share { next, ..share });
    Ok(())
}

/// Renders and puts the blocks of a worker, if it has no thread.
#[tactic(auto, using(crate::proofs::StepLemmas::steps_none, crate::proofs::StepLemmas::reached, crate::proofs::StepLemmas::reaches_on, crate::proofs::StepLemmas::rests_now, crate::proofs::StepLemmas::rests_after, crate::proofs::StepLemmas::steps_on, crate::proofs::StepLemmas::steps_end))]
pub(crate) fn put_rest<J: Blocks, R: Lines, B: BlockSink>(
    alloc: Global,
    source: &Source<R>,
    out: &mut B,
    progress: &mut Progress,
    odd: bool,
) -> Result<(), StreamError>
    requires job { Describes J.text J.count
        (R.line_at source.now.render.now source.now.frame.now)
        (length source.now.frame.now.rows) source.now.block_rows }
    requires count { J.count ≡ source.now.count }
    requires follows { AllFollow J.count progress.old }
    requires over { (share odd progress.old).started ≡ true
        → blocks_from odd (share odd progress.old).next J.count ≡ [] }
    ensures rests { OnOk result (Rests J.count odd progress.old progress.new) }
    ensures steps { Steps J.text J.count progress.old.order progress.new.order
        (B.seen out.old) (B.seen out.new) result }
{
    let share = progress.share(odd);
    if share.started {
        return Ok(());
    }
    for number in share.next..source.count {
        match put_own::<J, R, B>(alloc, source, out, progress, odd, number) {
            Ok(()) => {}
            Err(error) => return Err(error),
        }
    }
    Ok(())
}
