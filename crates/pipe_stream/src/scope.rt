//! The threads of the two workers, and the caller beside them.

ghost use Rattle.std.specs.Prelude.{◌≡◌, ◌≤◌, true, false, length};
ghost use Rattle.crossbeam_queue.specs.Passes.{view, IsPassOf};
ghost use Rattle.pipe_stream.specs.Blocks.{Describes};
ghost use Rattle.pipe_stream.specs.Messages.{script};
ghost use Rattle.pipe_stream.specs.Hands.{taker, view_of, worker};
ghost use Rattle.pipe_stream.specs.Desk.{Streamed};

use crate::blocks::Source;
use crate::caller::attend;
use crate::hands::{Blocks, Line, Seat};
use crate::outcome::{Report, StreamError};
use crate::progress::Progress;
use crate::render::Lines;
use crate::sink::BlockSink;
use crate::worker::work;
use std::alloc::Global;
use std::sync::Wait;
use std::thread;
use std::thread::Threads;

/// What the caller does while the threads of workers run.
pub(crate) trait Errand {
    type Output;

    /// What it needs.
    ghost can_run: { Self → Type 0 };

    /// What it gives.
    ghost gives: { Self → Self.Output → Type 0 };

    /// Does it, knowing whether each worker's thread was started.
    fn run(self, even: bool, odd: bool) -> Self::Output
        requires { can_run self }
        ensures { gives self result };
}

/// The caller, with what it puts the texts to.
#[derive(Drop)]
pub(crate) struct Caller<'a, J: Blocks, T, R, B> {
    pub rt: &'a T,
    pub alloc: Global,
    pub line: &'a Line<J>,
    pub seat: Seat,
    pub source: &'a Source<'a, R>,
    pub out: &'a mut B,
}

impl<'a, J: Blocks, T: Wait, R: Lines, B: BlockSink> Errand for Caller<'a, J, T, R, B> {
    type Output = (&'a mut B, Result<Report, StreamError>);

    ghost can_run = { λ c. Describes J.text J.count
        (R.line_at c.source.now.render.now c.source.now.frame.now)
        (length c.source.now.frame.now.rows) c.source.now.block_rows
        × (J.count ≡ c.source.now.count)
        × IsPassOf c.line.now c.seat
        × (view c.seat ≡ view_of (taker (script J.text J.count false 0)) (taker (script J.text J.count true 0))) };

    ghost gives = { λ c r. (r.0.ghost_name ≡ c.out.ghost_name) × Streamed J.text J.count (B.seen c.out.now) (B.seen r.0.now) r.1 };

    #[tactic(auto, using(crate::proofs::StreamLemmas::starts, crate::proofs::StreamLemmas::may_start, crate::proofs::StreamLemmas::count_fits, crate::proofs::StreamLemmas::streamed_all, crate::proofs::StreamLemmas::streamed_part))]
    fn run(self, even: bool, odd: bool) -> (&'a mut B, Result<Report, StreamError>) {
        let Caller {
            rt,
            alloc,
            line,
            mut seat,
            source,
            out,
        } = self;
        let mut progress = Progress::new(alloc, even, odd);
        let attended = attend(rt, alloc, line, &mut seat, source, out, &mut progress);
        let Progress {
            order,
            even: _,
            odd: _,
        } = progress;
        match attended {
            Ok(()) => (out, Ok(Report { order })),
            Err(error) => (out, Err(error)),
        }
    }
}

/// Starts the threads of both workers, does what the caller has to do, and returns once both have ended.
pub(crate) fn beside<
    J: Blocks + Send + Sync,
    T: Threads + Wait + Sync,
    R: Lines + Sync,
    S: Errand<Output = A> + Drop,
    A,
>(
    rt: &T,
    alloc: Global,
    line: &Line<J>,
    even_seat: Seat,
    odd_seat: Seat,
    source: &Source<R>,
    errand: S,
) -> A
    requires job { Describes J.text J.count
        (R.line_at source.now.render.now source.now.frame.now)
        (length source.now.frame.now.rows) source.now.block_rows }
    requires count { J.count ≡ source.now.count }
    requires even { IsPassOf line.now even_seat × (view even_seat ≡ worker false (script J.text J.count false 0)) }
    requires odd { IsPassOf line.now odd_seat × (view odd_seat ≡ worker true (script J.text J.count true 0)) }
    requires errand { S.can_run errand }
    ensures { S.gives errand result }
{
    thread::scope(
        thread::scope_env(),
        rt,
        move |scope| -> A
            requires job { Describes J.text J.count
                (R.line_at source.now.render.now source.now.frame.now)
                (length source.now.frame.now.rows) source.now.block_rows }
            requires count { J.count ≡ source.now.count }
            requires even { IsPassOf line.now even_seat × (view even_seat ≡ worker false (script J.text J.count false 0)) }
            requires odd { IsPassOf line.now odd_seat × (view odd_seat ≡ worker true (script J.text J.count true 0)) }
            requires errand { S.can_run errand }
            ensures { S.gives errand result }
        {
            let even = scope.spawn(move || { work(rt, alloc, line, even_seat, source, false) });
            let odd = scope.spawn(move || { work(rt, alloc, line, odd_seat, source, true) });
            errand.run(even.is_ok(), odd.is_ok())
        },
    )
}
