//! `why`: a job is read and looked at, and what keeps it from being run is told in words for people; or that nothing does,
//! and what it will do.

ghost use Rattle.std.specs.Prelude.{◌≡◌, ◌≤◌, ◌∷◌, [], length, string_bytes, IfOk, IfErr, IfSome, IsErrOf, OnOk};
ghost use Rattle.std.specs.Option.{option_copied};
ghost use Rattle.pipe_value.specs.View.{view};
ghost use Rattle.pipe_job.specs.JobSpelling.{task_of};
ghost use Rattle.pipe_job.specs.Reading.{Reading, ReadsJob};
ghost use Rattle.pipe_cli.specs.Commands.WhyCommand.{IsGoodText, why};
ghost use Rattle.pipe_cli.specs.Contract.{Answered, Causes, OfInput, Unread};
ghost use Rattle.pipe_cli.specs.Jobs.{IsLookedAt, IsSoundJob, job_kind};
ghost use Rattle.pipe_cli.specs.Outcome.{WroteFrontTold, WroteTold};
ghost use Rattle.pipe_cli.specs.Refused.{OfReading};
ghost use Rattle.pipe_cli.specs.Sources.{HasAll, IsTakenInPart, WasRead, bytes_at, limit, standard_or};
ghost use Rattle.pipe_cli.specs.Status.{OneOf, status_of, yes_of};
ghost use Rattle.pipe_cli.specs.Whys.{OfFault, OfText, ShortAnswered, TellsOf, WhyEnds, WroteOf, asks_why, name_in, told_statuses};

use crate::program::note;
use crate::refused::refused;
use crate::status::Refusal;
use crate::streams::{bytes_at, tell};
use pipe_check::CheckedPlan;
use pipe_exec::check_job;
use pipe_job::{Job, JobError, job_of, read_value};
use pipe_schema::Text;
use pipe_stream::{JobReader, RowWriter, write_whole};
use pipe_value::Value;
use pipe_why_inputs::{bad_json, fault_text, misfit_text, outcome_text};
use std::alloc::{AllocError, Global};
use std::fmt::Write;

/// Whether words ask why a job can't be run.
pub(crate) fn asks_why(words: &[Text]) -> bool
    ensures { result ≡ asks_why words.now }
{
    match words {
        [word] => word.as_str() == "why",
        [word, _] => word.as_str() == "why",
        _ => false,
    }
}

/// The name that stands behind a word.
pub(crate) fn name_in(words: &[Text]) -> Option<&Text>
    ensures { option_copied result ≡ name_in words.now }
{
    match words {
        [_, name] => Some(name),
        _ => None,
    }
}

/// The value that the bytes read as; where they are no JSON text, what is told is that.
fn value_in(alloc: Global, bytes: &[u8], told: &mut String) -> Result<Value, Refusal>
    ensures ok { IfOk result (λ value. Reading bytes.now (view value)) }
    ensures err { IfErr result (λ refusal. Unread job_kind refusal bytes.now) }
    ensures tells { IfErr result (λ refusal. TellsOf refusal (string_bytes told.new) bytes.now) }
{
    match read_value(alloc, bytes) {
        Ok(value) => Ok(value),
        Err(JobError::BadText) => {
            *told = bad_json(alloc, bytes)?;
            Err(Refusal::NotJson)
        }
        Err(_) => Err(Refusal::Memory),
    }
}

/// The job that the bytes spell; where they spell none, what is told is a place of them that keeps them from it.
#[tactic(auto, using(crate::proofs::JobLemmas::job_read, crate::proofs::JobLemmas::no_job_read))]
fn job_in(alloc: Global, bytes: &[u8], told: &mut String) -> Result<Job, Refusal>
    ensures ok { IfOk result (λ job. ReadsJob bytes.now (task_of job)) }
    ensures err { IfErr result (λ refusal. Unread job_kind refusal bytes.now) }
    ensures tells { IfErr result (λ refusal. TellsOf refusal (string_bytes told.new) bytes.now) }
{
    let value = value_in(alloc, bytes, told)?;
    match job_of(alloc, &value) {
        Ok(Some(job)) => Ok(job),
        Ok(None) => {
            *told = misfit_text(alloc, bytes, &value)?;
            Err(Refusal::NotJob)
        }
        Err(_) => Err(Refusal::Memory),
    }
}

/// The answer to a job that may be run: that it may, and what it will do.
#[tactic(auto, using(crate::proofs::WhyLemmas::good_text))]
fn good_text(alloc: Global, plan: &CheckedPlan, row_limit: u32) -> Result<Vec<u8>, AllocError>
    ensures { IfOk result (λ text. IsGoodText text.items) }
{
    let more = outcome_text(alloc, plan, row_limit)?;
    let mut text = Vec::from_slice(alloc, b"ok\n")?;
    text.extend_from_slice(more.as_bytes())?;
    Ok(text)
}

/// The answer to a job; where it can't be run, what is told is its fault.
#[tactic(auto, using(crate::proofs::JobLemmas::looked_at, crate::proofs::WhyLemmas::fault_told))]
fn look_at(alloc: Global, job: &Job, told: &mut String) -> Result<Vec<u8>, Refusal>
    ensures sound { OnOk result (IsSoundJob (task_of job.now)) }
    ensures good { IfOk result (λ text. IsGoodText text.items) }
    ensures err { IfErr result (λ refusal. IsLookedAt refusal (task_of job.now)) }
    ensures fault { IfErr result (λ refusal.
        OfFault refusal (string_bytes told.new) (task_of job.now)) }
{
    match check_job(alloc, &job.arena, job.root, &job.config) {
        Ok(plan) => {
            let text = good_text(alloc, &plan, job.config.row_limit)?;
            Ok(text)
        }
        Err(error) => {
            *told = fault_text(alloc, job, &error)?;
            Err(refused(alloc, error))
        }
    }
}

/// The answer to the job that the bytes are; where there is none, what is told is why.
#[tactic(auto, using(crate::proofs::JobLemmas::unread_looked, crate::proofs::WhyLemmas::unread_few, crate::proofs::JobLemmas::looked_told, crate::proofs::WhyLemmas::looked_few, crate::proofs::JobLemmas::looked_answer, crate::proofs::WhyLemmas::fault_of_bytes))]
fn answer_to(alloc: Global, bytes: &[u8], told: &mut String) -> Result<Vec<u8>, Refusal>
    ensures ok { IfOk result (λ text. Answered why bytes.now text.items) }
    ensures err { IfErr result (λ r. Causes why r bytes.now) }
    ensures only { IfErr result (λ r. OneOf told_statuses (status_of r)) }
    ensures tells { IfErr result (λ r. TellsOf r (string_bytes told.new) bytes.now) }
{
    let job = job_in(alloc, bytes, told)?;
    let text = look_at(alloc, &job, told)?;
    Ok(text)
}

/// Puts what is told of an input that isn't read.
fn put_unread(told: &mut String, name: Option<&Text>, refusal: &Refusal) -> Result<(), AllocError> {
    match (refusal, name) {
        (Refusal::ReadFault, Some(name)) => {
            write!(
                told,
                "not read: the file {} isn't there or can't be read\n",
                name.as_str()
            )
        }
        (Refusal::ReadFault, None) => told.push_str("not read: standard input can't be read\n"),
        (Refusal::TooLong, _) => { told.push_str("too long: a job has at most 33554432 bytes\n") }
        _ => Ok(()),
    }
}

/// The bytes of the input; where they aren't read, what is told of that is put.
fn input_at<R: JobReader>(
    alloc: Global,
    name: Option<&Text>,
    input: &mut R,
    told: &mut String,
) -> Result<Vec<u8>, Refusal>
    ensures all { IfOk result (λ bytes.
        HasAll bytes.items (bytes_at (standard_or (option_copied name.entry)) (R.seen input.old))) }
    ensures short { IfOk result (λ bytes. length bytes.items ≤ limit) }
    ensures read { OnOk result
        (WasRead (standard_or (option_copied name.entry)) (R.seen input.old) (R.seen input.new)) }
    ensures reading { IfErr result (λ r.
        OfReading r (bytes_at (standard_or (option_copied name.entry)) (R.seen input.old))
        (R.seen input.old) (R.seen input.new)) }
    ensures early { IfErr result (λ r. OneOf (2 ∷ 3 ∷ 10 ∷ []) (status_of r)) }
    ensures most { IsErrOf result Refusal.TooLong → IsTakenInPart
        (standard_or (option_copied name.entry)) (R.seen input.old) (R.seen input.new) }
{
    match bytes_at(alloc, name, input) {
        Ok(bytes) => Ok(bytes),
        Err(refusal) => {
            // Where there is no memory for a text, the refusal is told without one.
            let _ = put_unread(told, name, &refusal);
            Err(refusal)
        }
    }
}

/// The answer to an input; where there is none, what is told is why.
#[tactic(auto, using(crate::proofs::WhyLemmas::early_few, crate::proofs::WhyLemmas::short_answered, crate::proofs::RuleLemmas::early_input, crate::proofs::RuleLemmas::input_told, crate::proofs::RuleLemmas::caused_reading, crate::proofs::RuleLemmas::caused_short, crate::proofs::WhyLemmas::early_told, crate::proofs::WhyLemmas::all_told))]
fn answer_at<R: JobReader>(
    alloc: Global,
    name: Option<&Text>,
    input: &mut R,
    told: &mut String,
) -> Result<Vec<u8>, Refusal>
    ensures read { OnOk result
        (WasRead (standard_or (option_copied name.entry)) (R.seen input.old) (R.seen input.new)) }
    ensures answer { IfOk result (λ text.
        IfSome (bytes_at (standard_or (option_copied name.entry)) (R.seen input.old))
        (ShortAnswered text.items)) }
    ensures reading { IfErr result (λ r.
        OfReading r (bytes_at (standard_or (option_copied name.entry)) (R.seen input.old))
        (R.seen input.old) (R.seen input.new)) }
    ensures most { IsErrOf result Refusal.TooLong → IsTakenInPart
        (standard_or (option_copied name.entry)) (R.seen input.old) (R.seen input.new) }
    ensures input { IfErr result (λ r.
        OfInput why r (bytes_at (standard_or (option_copied name.entry)) (R.seen input.old))) }
    ensures only { IfErr result (λ r. OneOf told_statuses (status_of r)) }
    ensures tells { IfErr result (λ r.
        IfSome (bytes_at (standard_or (option_copied name.entry)) (R.seen input.old))
        (TellsOf r (string_bytes told.new))) }
{
    let bytes = input_at(alloc, name, input, told)?;
    answer_to(alloc, bytes.as_slice(), told)
}

/// Reads an input, and writes the answer to it, or what is told of why there is none.
#[tactic(auto, using(crate::proofs::WhyLemmas::wrote_answer, crate::proofs::WhyLemmas::unwritten_answer, crate::proofs::WhyLemmas::fault_reading, crate::proofs::WhyLemmas::fault_input, crate::proofs::WhyLemmas::fault_only, crate::proofs::WhyLemmas::fault_short, crate::proofs::WhyLemmas::told_text, crate::proofs::WhyLemmas::few_why, crate::proofs::WhyLemmas::wrote_of, crate::proofs::WhyLemmas::fault_wrote))]
fn tell_at<R: JobReader, W: RowWriter>(
    alloc: Global,
    name: Option<&Text>,
    input: &mut R,
    out: &mut W,
) -> Result<(), Refusal>
    ensures read { OnOk result
        (WasRead (standard_or (option_copied name.entry)) (R.seen input.old) (R.seen input.new)) }
    ensures wrote { OnOk result (WroteTold why
        (bytes_at (standard_or (option_copied name.entry)) (R.seen input.old))
        (W.seen out.old) (W.seen out.new)) }
    ensures reading { IfErr result (λ r.
        OfReading r (bytes_at (standard_or (option_copied name.entry)) (R.seen input.old))
        (R.seen input.old) (R.seen input.new)) }
    ensures most { IsErrOf result Refusal.TooLong → IsTakenInPart
        (standard_or (option_copied name.entry)) (R.seen input.old) (R.seen input.new) }
    ensures input { IfErr result (λ r.
        OfInput why r (bytes_at (standard_or (option_copied name.entry)) (R.seen input.old))) }
    ensures output { IfErr result (λ r. OfText r (WroteFrontTold why
        (bytes_at (standard_or (option_copied name.entry)) (R.seen input.old))
        (W.seen out.old) (W.seen out.new)) (W.seen out.old) (W.seen out.new)) }
    ensures only { IfErr result (λ r. OneOf why.statuses (status_of r)) }
    ensures told { IfErr result (λ r. WroteOf r
        (bytes_at (standard_or (option_copied name.entry)) (R.seen input.old))
        (W.seen out.old) (W.seen out.new)) }
{
    let mut told = String::new(alloc);
    match answer_at(alloc, name, input, &mut told) {
        Ok(text) => tell(out, text.as_slice()),
        Err(refusal) => {
            // What can't be written changes nothing: the status tells the refusal.
            let _ = write_whole(out, told.as_bytes());
            Err(refusal)
        }
    }
}

/// Tells why the job on standard input, or under a name, can't be run, or what it will do. It answers the status that
/// the program ends with.
#[tactic(auto, using(crate::proofs::WhyLemmas::never_stopped, crate::proofs::WhyLemmas::never_unknown, crate::proofs::WhyLemmas::never_yes))]
pub(crate) fn tell_why<R: JobReader, W: RowWriter, N: RowWriter>(
    alloc: Global,
    name: Option<&Text>,
    input: &mut R,
    out: &mut W,
    notes: &mut N,
) -> u8
    ensures ends { WhyEnds (option_copied name.entry) result
        (R.seen input.old) (R.seen input.new) (W.seen out.old) (W.seen out.new)
        (N.seen notes.old) (N.seen notes.new) }
    ensures no_stop { result ≡ 8 → ⊥ }
    ensures no_word { result ≡ 1 → ⊥ }
    ensures no_yes { yes_of result ≡ 0 }
{
    match tell_at(alloc, name, input, out) {
        Ok(()) => 0,
        Err(refusal) => {
            note(notes, &refusal);
            refusal.status()
        }
    }
}
