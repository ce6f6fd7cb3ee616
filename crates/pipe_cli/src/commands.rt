//! The commands: the words that call each, and what each answers to the bytes of its input. A command is a file here,
//! which has its body, and one in the crate's specs, which has its contract.

ghost use Rattle.std.specs.Prelude.{◌≡◌, ◌≤◌, ◌∷◌, [], length, true, false, option_map, IfOk, IfErr, IfSome, IsErrOf, OnOk};
ghost use Rattle.pipe_schema.specs.Counts.{Counts, Rises};
ghost use Rattle.pipe_selftest.specs.Words.{rows_in, start_in};
ghost use Rattle.pipe_cli.specs.Answers.{text_of};
ghost use Rattle.pipe_cli.specs.Commands.{HasGoodRows, contract_of, parts_request, request, request_of, source_of, test_request};
ghost use Rattle.pipe_cli.specs.Heights.{heights_in};
ghost use Rattle.pipe_cli.specs.Contract.{Answered, Causes};
ghost use Rattle.pipe_cli.specs.Outcome.{told_to};
ghost use Rattle.pipe_cli.specs.Refused.{OfReading};
ghost use Rattle.pipe_cli.specs.Sources.{HasAll, IsTakenInPart, Nowhere, WasRead, limit};
ghost use Rattle.pipe_cli.specs.Status.{OneOf, status_of, yes_in};

mod check;
mod explain;
mod help;
mod optimize;
mod parts;
mod reconcile;
mod replay_edits;
mod run;
mod selftest;
mod version;

use self::check::check;
use self::explain::explain;
use self::help::help_text;
use self::optimize::optimize;
use self::parts::parts;
use self::reconcile::reconcile;
use self::replay_edits::replay_edits;
pub(crate) use self::run::frame_of;
use self::run::run;
use self::selftest::selftest;
use self::version::version_text;
use crate::answer::Answer;
use crate::heights::are_heights;
use crate::status::Refusal;
use crate::streams::{bytes_at, bytes_left};
use pipe_schema::{Gate, StopCheck, Text};
use pipe_selftest::{rows_in, start_in};
use pipe_stream::JobReader;
use std::alloc::Global;
use std::thread::Threads;

/// What the program is asked to do.
#[derive(Clone, Copy, Debug)]
pub enum Command<'a> {
    /// `run` and `run FILE`: the job on standard input, or in the file, is run.
    Run(Option<&'a Text>),
    /// `check`: the job on standard input is looked at.
    Check,
    /// `explain`: the branches of the plan of the job on standard input are told.
    Explain,
    /// `optimize`: the job on standard input is written with its filters low and without needless columns.
    Optimize,
    /// `parts` and `parts --rows N,N,..`: how the tables of the job on standard input may be cut is told, over the
    /// rows that they have or that the word tells.
    Parts(Option<&'a Text>),
    /// `selftest START ROWS`: two frames of so many rows are drawn from a state on and joined.
    SelfTest(u64, u32),
    /// `reconcile`: the two tables on standard input are reconciled.
    Reconcile,
    /// `replay-edits`: a join on standard input is kept while its tables are edited.
    ReplayEdits,
    /// `--help`: a text tells what the program does.
    Help,
    /// `--version`: the name and the version are told.
    Version,
}

/// The self-test of two numbers, where both are good.
fn self_test(start: &str, rows: &str) -> Option<Command<'static>>
    ensures request { option_map request_of result
        ≡ test_request (start_in start.now) (rows_in rows.now) }
    ensures rows { IfSome result HasGoodRows }
{
    Some(Command::SelfTest(start_in(start)?, rows_in(rows)?))
}

/// `parts` over numbers of rows, where these are good.
#[tactic(auto, using(crate::proofs::HeightLemmas::asked_heights))]
fn parts_over<'a>(option: &Text, heights: &'a Text) -> Option<Command<'a>>
    ensures request { option_map request_of result
        ≡ parts_request option.now (heights_in heights.now) }
    ensures rows { IfSome result HasGoodRows }
{
    if option.as_str() != "--rows" || !are_heights(heights.as_str()) {
        return None;
    }
    Some(Command::Parts(Some(heights)))
}

/// The command that the words are, by exact words.
pub fn command_of(words: &[Text]) -> Option<Command<'_>>
    ensures request { option_map request_of result ≡ request words.now }
    ensures rows { IfSome result HasGoodRows }
{
    match words {
        [word] => match word.as_str() {
            "run" => Some(Command::Run(None)),
            "check" => Some(Command::Check),
            "explain" => Some(Command::Explain),
            "optimize" => Some(Command::Optimize),
            "parts" => Some(Command::Parts(None)),
            "reconcile" => Some(Command::Reconcile),
            "replay-edits" => Some(Command::ReplayEdits),
            "--help" => Some(Command::Help),
            "--version" => Some(Command::Version),
            _ => None,
        },
        [word, name] if word.as_str() == "run" => Some(Command::Run(Some(name))),
        [word, start, rows] if word.as_str() == "selftest" => {
            self_test(start.as_str(), rows.as_str())
        }
        [word, option, heights] if word.as_str() == "parts" => parts_over(option, heights),
        _ => None,
    }
}

/// The bytes of a command's input; none where it reads nothing.
#[tactic(auto, using(crate::proofs::Lawful::early_run, crate::proofs::Lawful::early_looks))]
pub(crate) fn input_of<R: JobReader>(
    alloc: Global,
    command: Command<'_>,
    input: &mut R,
) -> Result<Vec<u8>, Refusal>
    ensures all { IfOk result
        (λ bytes. HasAll bytes.items (told_to (request_of command.entry) (R.seen input.old))) }
    ensures short { IfOk result (λ bytes. length bytes.items ≤ limit) }
    ensures read { OnOk result
        (WasRead (source_of (request_of command.entry)) (R.seen input.old) (R.seen input.new)) }
    ensures reading { IfErr result (λ r.
        OfReading r (told_to (request_of command.entry) (R.seen input.old))
        (R.seen input.old) (R.seen input.new)) }
    ensures only { IfErr result (λ r.
        OneOf (contract_of (request_of command.entry)).statuses (status_of r)) }
    ensures early { IfErr result (λ r. OneOf (2 ∷ 3 ∷ 10 ∷ []) (status_of r)) }
    ensures untouched { source_of (request_of command.entry) ≡ Nowhere → input.new ≡ input.old }
    ensures most { IsErrOf result Refusal.TooLong → IsTakenInPart
        (source_of (request_of command.entry)) (R.seen input.old) (R.seen input.new) }
{
    match command {
        Command::Run(name) => bytes_at(alloc, name, input),
        Command::Check
        | Command::Explain
        | Command::Optimize
        | Command::Parts(_)
        | Command::Reconcile
        | Command::ReplayEdits => bytes_left(alloc, input),
        Command::SelfTest(..) | Command::Help | Command::Version => Ok(Vec::new(alloc)),
    }
}

/// A command's answer to the bytes of its input.
#[tactic(auto, using(crate::proofs::RuleLemmas::counts_none, crate::proofs::RuleLemmas::unasked_yes))]
pub(crate) fn answer_of<T: Threads + Sync, C: StopCheck, G: Gate + Sync>(
    rt: &T,
    alloc: Global,
    command: Command<'_>,
    bytes: Vec<u8>,
    stop: &mut C,
    gate: &G,
) -> Result<Answer, Refusal>
    requires rows { HasGoodRows command }
    ensures ok { IfOk result (λ answer.
        Answered (contract_of (request_of command.entry)) bytes.items (text_of answer)) }
    ensures err { IfErr result (λ r.
        Causes (contract_of (request_of command.entry)) r bytes.items) }
    ensures only { IfErr result (λ r.
        OneOf (contract_of (request_of command.entry)).statuses (status_of r)) }
    ensures asked { (contract_of (request_of command.entry)).asks ≡ true
        → OnOk result (Rises (C.asked stop.old) (C.asked stop.new)) }
    ensures unasked { (contract_of (request_of command.entry)).asks ≡ false → stop.new ≡ stop.old }
    ensures yes { Counts (yes_in result) (C.yes stop.old) (C.yes stop.new) }
    ensures last { IsErrOf result Refusal.Stopped → C.last_answer stop.new ≡ true }
{
    match command {
        Command::Run(_) => run(rt, alloc, bytes, stop, gate),
        Command::Check => check(alloc, bytes),
        Command::Explain => explain(alloc, bytes),
        Command::Optimize => optimize(alloc, bytes),
        Command::Parts(heights) => parts(alloc, bytes, heights),
        Command::SelfTest(start, rows) => selftest(rt, alloc, start, rows, stop, gate),
        Command::Reconcile => reconcile(rt, alloc, bytes, stop, gate),
        Command::ReplayEdits => replay_edits(alloc, bytes),
        Command::Help => Ok(Answer::Fixed(help_text())),
        Command::Version => Ok(Answer::Fixed(version_text())),
    }
}
