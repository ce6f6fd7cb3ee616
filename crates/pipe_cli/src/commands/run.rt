//! `run` and `run FILE`: the job is read and run, and its rows are told.

ghost use Rattle.std.specs.Prelude.{◌≡◌, ◌++◌, true, IfOk, IfErr, IsErrOf, OnOk};
ghost use Rattle.std.specs.List.{flat_map};
ghost use Rattle.pipe_exec.specs.Evaluated.{HasRowsOf};
ghost use Rattle.pipe_schema.specs.Counts.{Counts, Rises};
ghost use Rattle.pipe_job.specs.JobSpelling.{task_of};
ghost use Rattle.pipe_job.specs.Line.{head_line, row_line};
ghost use Rattle.pipe_plan.specs.Plan.{plan_of};
ghost use Rattle.pipe_plan.specs.Schemas.{schema_of};
ghost use Rattle.pipe_cli.specs.Answers.{text_of};
ghost use Rattle.pipe_cli.specs.Contract.{Answered, Because, Causes};
ghost use Rattle.pipe_cli.specs.Commands.RunCommand.{run};
ghost use Rattle.pipe_cli.specs.Jobs.{IsSoundJob, IsWithinJob};
ghost use Rattle.pipe_cli.specs.Status.{OneOf, status_of, yes_in};

use crate::answer::Answer;
use crate::jobs::job_in;
use crate::refused::refused;
use crate::status::Refusal;
use pipe_exec::run_plan;
use pipe_frame::DataFrame;
use pipe_job::{Job, push_head_line, push_rows};
use pipe_schema::{Gate, StopCheck};
use std::alloc::{AllocError, Global};
use std::thread::Threads;

/// The rows of a job.
#[tactic(auto, using(crate::proofs::JobLemmas::told_run, crate::proofs::RuleLemmas::told_yes, crate::proofs::RuleLemmas::told_last))]
pub(crate) fn frame_of<T: Threads + Sync, C: StopCheck, G: Gate + Sync>(
    rt: &T,
    alloc: Global,
    job: &Job,
    stop: &mut C,
    gate: &G,
) -> Result<DataFrame, Refusal>
    ensures sound { OnOk result (IsSoundJob (task_of job.now)) }
    ensures within { OnOk result (IsWithinJob (task_of job.now)) }
    ensures schema { let plan = plan_of job.now.arena in
        IfOk result (λ frame. frame.schema ≡ schema_of plan job.now.root) }
    ensures rows { IfOk result (λ frame.
        HasRowsOf (plan_of job.now.arena) job.now.root frame.rows) }
    ensures err { IfErr result (λ r. Because run r (task_of job.now)) }
    ensures asked { OnOk result (Rises (C.asked stop.old) (C.asked stop.new)) }
    ensures yes { Counts (yes_in result) (C.yes stop.old) (C.yes stop.new) }
    ensures last { IsErrOf result Refusal.Stopped → C.last_answer stop.new ≡ true }
{
    match run_plan(rt, alloc, &job.arena, job.root, &job.config, stop, gate) {
        Ok(answer) => Ok(answer.into_frame()),
        Err(error) => Err(refused(alloc, error)),
    }
}

/// The line of the column names, and the lines of the rows.
fn lines_of(alloc: Global, frame: &DataFrame) -> Result<Vec<u8>, AllocError>
    ensures { IfOk result (λ text.
        text.items ≡ head_line frame.now.schema ++ flat_map row_line frame.now.rows) }
{
    let mut text = Vec::new(alloc);
    push_head_line(&mut text, frame.schema())?;
    push_rows(&mut text, frame)?;
    Ok(text)
}

/// The rows of the job that the bytes are.
#[tactic(auto, using(crate::proofs::JobLemmas::unread_run, crate::proofs::JobLemmas::run_told, crate::proofs::JobLemmas::run_answer, crate::proofs::JobLemmas::run_only))]
pub(crate) fn run<T: Threads + Sync, C: StopCheck, G: Gate + Sync>(
    rt: &T,
    alloc: Global,
    bytes: Vec<u8>,
    stop: &mut C,
    gate: &G,
) -> Result<Answer, Refusal>
    ensures ok { IfOk result (λ answer. Answered run bytes.items (text_of answer)) }
    ensures err { IfErr result (λ r. Causes run r bytes.items) }
    ensures only { IfErr result (λ r. OneOf run.statuses (status_of r)) }
    ensures asked { OnOk result (Rises (C.asked stop.old) (C.asked stop.new)) }
    ensures yes { Counts (yes_in result) (C.yes stop.old) (C.yes stop.new) }
    ensures last { IsErrOf result Refusal.Stopped → C.last_answer stop.new ≡ true }
{
    let job = job_in(alloc, bytes)?;
    let frame = frame_of(rt, alloc, &job, stop, gate)?;
    // the job's frames aren't held beside the text
    drop(job);
    let text = lines_of(alloc, &frame)?;
    Ok(Answer::Made(text))
}
