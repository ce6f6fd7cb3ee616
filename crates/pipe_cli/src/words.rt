//! The call that `main` makes: `stream`, `why`, or what `run_program` does.

ghost use Rattle.std.specs.Prelude.{◌≡◌, true, false};
ghost use Rattle.pipe_schema.specs.Counts.{Counts, Rises};
ghost use Rattle.pipe_cli.specs.Outcome.{AsksNoInput, asks_run};
ghost use Rattle.pipe_cli.specs.Status.{yes_of};
ghost use Rattle.std.specs.Option.{option_copied};
ghost use Rattle.pipe_cli.specs.Streams.{ProgramEnds, StreamEnds, asks_stream};
ghost use Rattle.pipe_cli.specs.Whys.{WhyEnds, asks_why, name_in};

use crate::program::{note, run_program};
use crate::stream::stream_left;
use crate::why::{asks_why, name_in, tell_why};
use pipe_schema::{Gate, StopCheck, Text};
use pipe_stream::{JobReader, RowWriter};
use std::alloc::Global;
use std::sync::Wait;
use std::thread::Threads;

/// Whether words ask for a stream.
fn asks_stream(words: &[Text]) -> bool
    ensures { result ≡ asks_stream words.now }
{
    match words {
        [word] => word.as_str() == "stream",
        _ => false,
    }
}

/// Does what words ask for that ask for no stream: tells why a job can't be run, or does what [`run_program`] does.
#[tactic(auto, using(crate::proofs::WhyLemmas::why_not_run, crate::proofs::WhyLemmas::why_reads, crate::proofs::WhyLemmas::no_yes, crate::proofs::RuleLemmas::counts_none))]
fn run_other<
    T: Threads + Sync,
    R: JobReader,
    W: RowWriter,
    N: RowWriter,
    C: StopCheck,
    G: Gate + Sync,
>(
    rt: &T,
    alloc: Global,
    words: &[Text],
    input: &mut R,
    out: &mut W,
    notes: &mut N,
    stop: &mut C,
    gate: &G,
) -> u8
    ensures why { asks_why words.now ≡ true
        → WhyEnds (name_in words.now) result (R.seen input.old) (R.seen input.new)
        (W.seen out.old) (W.seen out.new) (N.seen notes.old) (N.seen notes.new) }
    ensures other { asks_why words.now ≡ false
        → ProgramEnds words.now result (R.seen input.old) (R.seen input.new)
        (W.seen out.old) (W.seen out.new) (N.seen notes.old) (N.seen notes.new) }
    ensures yes { Counts (yes_of result) (C.yes stop.old) (C.yes stop.new) }
    ensures last { result ≡ 8 → C.last_answer stop.new ≡ true }
    ensures asked { asks_run words.now ≡ true → result ≡ 0
        → Rises (C.asked stop.old) (C.asked stop.new) }
    ensures runs { result ≡ 8 → asks_run words.now ≡ true }
    ensures unasked { asks_run words.now ≡ false → stop.new ≡ stop.old }
    ensures unread { result ≡ 1 → input.new ≡ input.old }
    ensures untouched { AsksNoInput words.now → input.new ≡ input.old }
{
    if asks_why(words) {
        return tell_why(alloc, name_in(words), input, out, notes);
    }
    run_program(rt, alloc, words, input, out, notes, stop, gate)
}

/// Does what the words ask for: for the one word `stream` it reads a job from `input`, runs it and writes its rows to
/// `out` in blocks of `chunk_rows` rows, the first line and then each block as soon as one of two workers has rendered
/// it; for `why`, alone or with the name of a file, it writes why the job there can't be run, or what it will do; for all
/// other words it does what [`run_program`] does. It answers the status that the program ends with.
///
/// A stream waits for its workers, and what is promised of it holds once it returns.
#[tactic(auto, using(crate::proofs::StreamEndings::stream_refused, crate::proofs::StreamEndings::stream_written, crate::proofs::RuleLemmas::yes_told, crate::proofs::StatusLemmas::is_stop))]
pub fn run_words<
    T: Threads + Wait + Sync,
    R: JobReader,
    W: RowWriter,
    N: RowWriter,
    C: StopCheck,
    G: Gate + Sync,
>(
    rt: &T,
    alloc: Global,
    words: &[Text],
    input: &mut R,
    out: &mut W,
    notes: &mut N,
    stop: &mut C,
    gate: &G,
) -> u8
    ensures stream { asks_stream words.now ≡ true
        → StreamEnds result (R.seen input.old) (R.seen input.new)
        (W.seen out.old) (W.seen out.new) (N.seen notes.old) (N.seen notes.new) }
    ensures why { asks_stream words.now ≡ false → asks_why words.now ≡ true
        → WhyEnds (name_in words.now) result (R.seen input.old) (R.seen input.new)
        (W.seen out.old) (W.seen out.new) (N.seen notes.old) (N.seen notes.new) }
    ensures other { asks_stream words.now ≡ false → asks_why words.now ≡ false
        → ProgramEnds words.now result (R.seen input.old) (R.seen input.new)
        (W.seen out.old) (W.seen out.new) (N.seen notes.old) (N.seen notes.new) }

    // The stop check is asked in a run and in a stream. It says yes in one that ends with 8, and in no other.
    ensures yes { Counts (yes_of result) (C.yes stop.old) (C.yes stop.new) }
    ensures last { result ≡ 8 → C.last_answer stop.new ≡ true }
    ensures streamed { asks_stream words.now ≡ true → result ≡ 0
        → Rises (C.asked stop.old) (C.asked stop.new) }
    ensures asked { asks_run words.now ≡ true → result ≡ 0
        → Rises (C.asked stop.old) (C.asked stop.new) }
    ensures runs { asks_stream words.now ≡ false → result ≡ 8 → asks_run words.now ≡ true }
    ensures unasked { asks_stream words.now ≡ false → asks_run words.now ≡ false
        → stop.new ≡ stop.old }
    ensures unread { asks_stream words.now ≡ false → result ≡ 1 → input.new ≡ input.old }
    ensures untouched { asks_stream words.now ≡ false → AsksNoInput words.now
        → input.new ≡ input.old }
{
    if !asks_stream(words) {
        return run_other(rt, alloc, words, input, out, notes, stop, gate);
    }
    match stream_left(rt, alloc, input, out, stop, gate) {
        Ok(()) => 0,
        Err(refusal) => {
            note(notes, &refusal);
            refusal.status()
        }
    }
}
