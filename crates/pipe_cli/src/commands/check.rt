//! `check`: the job is read and looked at, and that it may be run is told.

ghost use Rattle.std.specs.Prelude.{◌≡◌, IfOk, IfErr, OnOk};
ghost use Rattle.pipe_job.specs.JobSpelling.{task_of};
ghost use Rattle.pipe_cli.specs.Answers.{text_of};
ghost use Rattle.pipe_cli.specs.Contract.{Answered, Causes};
ghost use Rattle.pipe_cli.specs.Commands.CheckCommand.{check, ok_text};
ghost use Rattle.pipe_cli.specs.Jobs.{IsLookedAt, IsSoundJob};
ghost use Rattle.pipe_cli.specs.Status.{OneOf, status_of};

use crate::answer::Answer;
use crate::jobs::{checked, job_in};
use crate::status::Refusal;
use pipe_job::Job;
use std::alloc::Global;

/// What is told of a job that may be run.
fn ok_text() -> &'static str
    ensures { result.now ≡ ok_text }
{
    "ok\n"
}

/// Whether a job may be run.
fn look_at(alloc: Global, job: &Job) -> Result<(), Refusal>
    ensures sound { OnOk result (IsSoundJob (task_of job.now)) }
    ensures err { IfErr result (λ r. IsLookedAt r (task_of job.now)) }
{
    drop(checked(alloc, job)?);
    Ok(())
}

/// Whether the job that the bytes are may be run.
#[tactic(auto, using(crate::proofs::JobLemmas::unread_looked, crate::proofs::JobLemmas::unread_looked_only, crate::proofs::JobLemmas::looked_told, crate::proofs::JobLemmas::looked_only, crate::proofs::JobLemmas::looked_answer))]
pub(crate) fn check(alloc: Global, bytes: Vec<u8>) -> Result<Answer, Refusal>
    ensures ok { IfOk result (λ answer. Answered check bytes.items (text_of answer)) }
    ensures err { IfErr result (λ r. Causes check r bytes.items) }
    ensures only { IfErr result (λ r. OneOf check.statuses (status_of r)) }
{
    let job = job_in(alloc, bytes)?;
    look_at(alloc, &job)?;
    Ok(Answer::Fixed(ok_text()))
}
