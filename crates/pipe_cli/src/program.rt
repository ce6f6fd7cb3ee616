//! The top call: the words are read, what they ask for is done, and where it is refused, why is noted.

ghost use Rattle.std.specs.Prelude.{◌≡◌, ◌≢◌, ◌↔◌, ◌≤◌, ◌∷◌, [], true, false, IfErr, IsErrOf, IsSome, OnOk, None};
ghost use Rattle.pipe_schema.specs.Counts.{Counts, Rises};
ghost use Rattle.pipe_stream.specs.Outside.{ReadFails, WriteFails};
ghost use Rattle.pipe_cli.specs.Commands.{HasGoodRows, contract_of, request, request_of, source_of};
ghost use Rattle.pipe_cli.specs.Contract.{NoInput, Nothing, OfInput, RefusedAs, ShortGood, Sound, TooWide, Wide};
ghost use Rattle.pipe_cli.specs.Outcome.{AsksNoInput, InputOf, IfInput, IsInput, IsRead, IsTooLong, Long, MayEnd, Noted, NotedFault, OfOutput, OfWords, OutputOf, ReadingOf, TakenInPart, Wrote, WroteFront, WroteTold, asks_run, told_to};
ghost use Rattle.pipe_cli.specs.Refused.{OfReading};
ghost use Rattle.pipe_cli.specs.Sources.{IsTakenInPart, Nowhere, WasRead};
ghost use Rattle.pipe_cli.specs.Status.{IsFixed, OneOf, line_of, status_line, status_of, yes_in, yes_of};

use crate::commands::{Command, answer_of, command_of, input_of};
use crate::status::Refusal;
use crate::streams::tell;
use pipe_schema::{Gate, StopCheck, Text};
use pipe_stream::{JobReader, RowWriter, write_whole};
use std::alloc::Global;
use std::thread::Threads;

/// Reads the input of a command, and writes its answer.
#[tactic(auto, using(crate::proofs::Lawful::may_write, crate::proofs::RuleLemmas::input_told, crate::proofs::RuleLemmas::early_input, crate::proofs::RuleLemmas::caused_reading, crate::proofs::RuleLemmas::early_unwritten, crate::proofs::RuleLemmas::caused_unwritten, crate::proofs::RuleLemmas::wrote_told, crate::proofs::RuleLemmas::front_told, crate::proofs::RuleLemmas::early_known, crate::proofs::RuleLemmas::early_going, crate::proofs::RuleLemmas::early_passed, crate::proofs::RuleLemmas::caused_known, crate::proofs::RuleLemmas::caused_short, crate::proofs::RuleLemmas::yes_passed, crate::proofs::RuleLemmas::yes_told, crate::proofs::RuleLemmas::write_reading, crate::proofs::RuleLemmas::write_input, crate::proofs::RuleLemmas::write_output))]
fn perform<T: Threads + Sync, R: JobReader, W: RowWriter, C: StopCheck, G: Gate + Sync>(
    rt: &T,
    alloc: Global,
    command: Command<'_>,
    input: &mut R,
    out: &mut W,
    stop: &mut C,
    gate: &G,
) -> Result<(), Refusal>
    requires rows { HasGoodRows command }
    ensures read { OnOk result
        (WasRead (source_of (request_of command.entry)) (R.seen input.old) (R.seen input.new)) }
    ensures wrote { let told = told_to (request_of command.entry) (R.seen input.old) in
        OnOk result (WroteTold (contract_of (request_of command.entry)) told
        (W.seen out.old) (W.seen out.new)) }
    ensures reading { let told = told_to (request_of command.entry) (R.seen input.old) in
        IfErr result (λ r. OfReading r told (R.seen input.old) (R.seen input.new)) }
    ensures input { let told = told_to (request_of command.entry) (R.seen input.old) in
        IfErr result (λ r. OfInput (contract_of (request_of command.entry)) r told) }
    ensures output { let told = told_to (request_of command.entry) (R.seen input.old) in
        IfErr result (λ r.
        OfOutput (contract_of (request_of command.entry)) r told
        (W.seen out.old) (W.seen out.new)) }
    ensures only { IfErr result (λ r.
        OneOf (contract_of (request_of command.entry)).statuses (status_of r)) }
    ensures known { IsErrOf result Refusal.BadWords → ⊥ }
    ensures untouched { source_of (request_of command.entry) ≡ Nowhere → input.new ≡ input.old }
    ensures most { IsErrOf result Refusal.TooLong → IsTakenInPart
        (source_of (request_of command.entry)) (R.seen input.old) (R.seen input.new) }
    ensures asked { (contract_of (request_of command.entry)).asks ≡ true
        → OnOk result (Rises (C.asked stop.old) (C.asked stop.new)) }
    ensures unasked { (contract_of (request_of command.entry)).asks ≡ false → stop.new ≡ stop.old }
    ensures yes { Counts (yes_in result) (C.yes stop.old) (C.yes stop.new) }
    ensures last { IsErrOf result Refusal.Stopped → C.last_answer stop.new ≡ true }
{
    let bytes = input_of(alloc, command, input)?;
    let answer = answer_of(rt, alloc, command, bytes, stop, gate)?;
    tell(out, answer.as_bytes())
}

/// Does what the words ask for.
#[tactic(auto, using(crate::proofs::WordLemmas::read_asked, crate::proofs::WordLemmas::wrote_asked, crate::proofs::WordLemmas::reading_asked, crate::proofs::WordLemmas::input_asked, crate::proofs::WordLemmas::output_asked, crate::proofs::WordLemmas::may_end_asked, crate::proofs::WordLemmas::asks_asked, crate::proofs::WordLemmas::nowhere_asked, crate::proofs::WordLemmas::words_asked, crate::proofs::WordLemmas::unknown_words, crate::proofs::WordLemmas::unknown_reading, crate::proofs::WordLemmas::unknown_input, crate::proofs::WordLemmas::unknown_output, crate::proofs::WordLemmas::unknown_end, crate::proofs::WordLemmas::known_asked, crate::proofs::WordLemmas::few_asked))]
fn attempt<T: Threads + Sync, R: JobReader, W: RowWriter, C: StopCheck, G: Gate + Sync>(
    rt: &T,
    alloc: Global,
    words: &[Text],
    input: &mut R,
    out: &mut W,
    stop: &mut C,
    gate: &G,
) -> Result<(), Refusal>
    ensures known { OnOk result (IsSome (request words.now)) }
    ensures words { IfErr result (λ r. OfWords r words.now) }
    ensures read { OnOk result (IsRead words.now (R.seen input.old) (R.seen input.new)) }
    ensures wrote { OnOk result
        (Wrote words.now (R.seen input.old) (W.seen out.old) (W.seen out.new)) }
    ensures reading { IfErr result (λ r.
        ReadingOf r words.now (R.seen input.old) (R.seen input.new)) }
    ensures input { IfErr result (λ r. InputOf r words.now (R.seen input.old)) }
    ensures output { IfErr result (λ r.
        OutputOf r words.now (R.seen input.old) (W.seen out.old) (W.seen out.new)) }
    ensures only { IfErr result (λ r. MayEnd words.now (status_of r)) }
    ensures unread { IsErrOf result Refusal.BadWords → input.new ≡ input.old }
    ensures unwritten { IsErrOf result Refusal.BadWords
        → (W.seen out.new).written ≡ (W.seen out.old).written }
    ensures untouched { AsksNoInput words.now → input.new ≡ input.old }
    ensures most { IsErrOf result Refusal.TooLong →
        TakenInPart words.now (R.seen input.old) (R.seen input.new) }
    ensures asked { asks_run words.now ≡ true
        → OnOk result (Rises (C.asked stop.old) (C.asked stop.new)) }
    ensures unasked { asks_run words.now ≡ false → stop.new ≡ stop.old }
    ensures yes { Counts (yes_in result) (C.yes stop.old) (C.yes stop.new) }
    ensures last { IsErrOf result Refusal.Stopped → C.last_answer stop.new ≡ true }
{
    match command_of(words) {
        Some(command) => perform(rt, alloc, command, input, out, stop, gate),
        None => Err(Refusal::BadWords),
    }
}

/// Notes why there is no answer.
pub(crate) fn note<N: RowWriter>(notes: &mut N, refusal: &Refusal)
    ensures { Noted (line_of refusal.now) (N.seen notes.old) (N.seen notes.new) }
{
    // A note that can't be written changes nothing.
    let _ = write_whole(notes, refusal.line());
}

/// Does what the words ask for: reads the input of the command, from `input` or from the file that is named, and
/// writes its answer to `out`. Threads are started in a run alone, in which each worker is one, and `stop` is asked
/// whether to go on. It answers the status that the program ends with; for a status other than 0 its line is written
/// to `notes`.
#[tactic(auto, using(crate::proofs::StatusLemmas::long_ran, crate::proofs::StatusLemmas::long_ended, crate::proofs::StatusLemmas::none_ran, crate::proofs::StatusLemmas::none_ended, crate::proofs::StatusLemmas::refused_ran, crate::proofs::StatusLemmas::refused_ended, crate::proofs::StatusLemmas::wide_ran, crate::proofs::StatusLemmas::wide_ended, crate::proofs::StatusLemmas::good_ended, crate::proofs::StatusLemmas::says_nothing, crate::proofs::StatusLemmas::says_none, crate::proofs::StatusLemmas::says_fault, crate::proofs::StatusLemmas::says_many, crate::proofs::StatusLemmas::says_sound, crate::proofs::StatusLemmas::says_read_fault, crate::proofs::StatusLemmas::says_long, crate::proofs::StatusLemmas::says_write_fault, crate::proofs::StatusLemmas::says_front, crate::proofs::StatusLemmas::says_unwritten, crate::proofs::StatusLemmas::is_stop, crate::proofs::StatusLemmas::is_long, crate::proofs::StatusLemmas::stop_runs, crate::proofs::StatusLemmas::status_within, crate::proofs::StatusLemmas::may_answer, crate::proofs::StatusLemmas::no_line))]
pub fn run_program<
    T: Threads + Sync,
    R: JobReader,
    W: RowWriter,
    N: RowWriter,
    C: StopCheck,
    G: Gate + Sync,
>(
    rt: &T,
    alloc: Global,
    words: &[Text],
    input: &mut R,
    out: &mut W,
    notes: &mut N,
    stop: &mut C,
    gate: &G,
) -> u8
    // The headline: the input was read to its end, and what was written is the command's answer to it.
    ensures read { result ≡ 0 → IsRead words.now (R.seen input.old) (R.seen input.new) }
    ensures wrote { result ≡ 0
        → Wrote words.now (R.seen input.old) (W.seen out.old) (W.seen out.new) }

    // Why there is another status.
    ensures bad_words { (result ≡ 1) ↔ (request words.now ≡ None) }
    ensures read_fault { result ≡ 2 → ReadFails (R.seen input.old) (R.seen input.new) }
    ensures too_long { result ≡ 3 → IsTooLong words.now (R.seen input.old) (R.seen input.new) }
    ensures not_json { result ≡ 4 → IfInput words.now (R.seen input.old) Nothing }
    ensures not_job { result ≡ 5 → IfInput words.now (R.seen input.old) NoInput }
    ensures refused { result ≡ 6 → IfInput words.now (R.seen input.old) (RefusedAs 6) }
    ensures too_many { result ≡ 7 → IfInput words.now (R.seen input.old) TooWide }
    ensures stopped { result ≡ 8 → IfInput words.now (R.seen input.old) Sound }
    ensures write_fault { result ≡ 9 → WriteFails (W.seen out.old) (W.seen out.new) }

    ensures status { result ≤ 10 }

    // Which status may come: those of the command, and of these, where nothing before it does, those that the input
    // allows. A good one ends with 0, or by a fault, a stop, or for want of memory.
    ensures only { MayEnd words.now result }
    ensures if_long { IsInput words.now (R.seen input.old) Long
        → OneOf (2 ∷ 3 ∷ 10 ∷ []) result }
    ensures if_no_job { IsInput words.now (R.seen input.old) NoInput
        → OneOf (2 ∷ 3 ∷ 5 ∷ 10 ∷ []) result }
    ensures if_fault { IsInput words.now (R.seen input.old) (RefusedAs 6)
        → OneOf (2 ∷ 3 ∷ 6 ∷ 10 ∷ []) result }
    ensures if_many { IsInput words.now (R.seen input.old) (RefusedAs 7)
        → OneOf (2 ∷ 3 ∷ 7 ∷ 10 ∷ []) result }
    ensures if_wide { IsInput words.now (R.seen input.old) Wide
        → OneOf (2 ∷ 3 ∷ 7 ∷ 8 ∷ 10 ∷ []) result }
    ensures complete { IsInput words.now (R.seen input.old) ShortGood
        → OneOf (0 ∷ 2 ∷ 8 ∷ 9 ∷ 10 ∷ []) result }

    // The stop check is asked in a run. It says yes in one that ends with 8, and in no other.
    ensures runs { result ≡ 8 → asks_run words.now ≡ true }
    ensures yes { Counts (yes_of result) (C.yes stop.old) (C.yes stop.new) }
    ensures last { result ≡ 8 → C.last_answer stop.new ≡ true }
    ensures asked { asks_run words.now ≡ true → result ≡ 0
        → Rises (C.asked stop.old) (C.asked stop.new) }
    ensures unasked { asks_run words.now ≡ false → stop.new ≡ stop.old }

    // What is read and written.
    ensures unread { result ≡ 1 → input.new ≡ input.old }
    ensures untouched { AsksNoInput words.now → input.new ≡ input.old }
    ensures most { result ≡ 3 → TakenInPart words.now (R.seen input.old) (R.seen input.new) }
    ensures front { result ≡ 9
        → WroteFront words.now (R.seen input.old) (W.seen out.old) (W.seen out.new) }
    ensures nothing { result ≢ 0 → result ≢ 9
        → (W.seen out.new).written ≡ (W.seen out.old).written }
    ensures noted { IsFixed result
        → Noted (status_line result) (N.seen notes.old) (N.seen notes.new) }
    ensures told { NotedFault result words.now (R.seen input.old)
        (N.seen notes.old) (N.seen notes.new) }
    ensures quiet { result ≡ 0 → (N.seen notes.new).written ≡ (N.seen notes.old).written }
{
    match attempt(rt, alloc, words, input, out, stop, gate) {
        Ok(()) => 0,
        Err(refusal) => {
            note(notes, &refusal);
            refusal.status()
        }
    }
}
