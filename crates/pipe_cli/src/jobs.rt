//! Jobs: how one is read, and looked at.

ghost use Rattle.std.specs.Prelude.{◌≡◌, IfOk, IfErr, IsErrOf, OnOk};
ghost use Rattle.pipe_value.specs.View.{view};
ghost use Rattle.pipe_job.specs.JobSpelling.{task_of};
ghost use Rattle.pipe_job.specs.Reading.{Reading, ReadsJob};
ghost use Rattle.pipe_cli.specs.Contract.{Unread};
ghost use Rattle.pipe_cli.specs.Jobs.{IsLookedAt, IsSoundJob, job_kind};

use crate::refused::refused;
use crate::status::Refusal;
use pipe_check::CheckedPlan;
use pipe_exec::check_job;
use pipe_job::{Job, JobError, job_of, read_value};
use pipe_value::Value;
use std::alloc::Global;

/// The value that the bytes read as. The bytes are dropped then: they take as much memory as a job may.
fn value_in(alloc: Global, bytes: Vec<u8>) -> Result<Value, Refusal>
    ensures ok { IfOk result (λ value. Reading bytes.items (view value)) }
    ensures err { IfErr result (λ refusal. Unread job_kind refusal bytes.items) }
{
    match read_value(alloc, bytes.as_slice()) {
        Ok(value) => Ok(value),
        Err(JobError::BadText) => Err(Refusal::NotJson),
        Err(_) => Err(Refusal::Memory),
    }
}

/// The job that the bytes spell.
#[tactic(auto, using(crate::proofs::JobLemmas::job_read, crate::proofs::JobLemmas::no_job_read))]
pub(crate) fn job_in(alloc: Global, bytes: Vec<u8>) -> Result<Job, Refusal>
    ensures ok { IfOk result (λ job. ReadsJob bytes.items (task_of job)) }
    ensures err { IfErr result (λ refusal. Unread job_kind refusal bytes.items) }
{
    let value = value_in(alloc, bytes)?;
    match job_of(alloc, &value) {
        Ok(Some(job)) => Ok(job),
        Ok(None) => Err(Refusal::NotJob),
        Err(_) => Err(Refusal::Memory),
    }
}

/// The plan of a job that may be run, checked.
#[tactic(auto, using(crate::proofs::JobLemmas::looked_at))]
pub(crate) fn checked(alloc: Global, job: &Job) -> Result<CheckedPlan<'_>, Refusal>
    ensures plan { IfOk result (λ plan.
        plan ≡ record { arena = job.now.arena; root = job.now.root }) }
    ensures sound { OnOk result (IsSoundJob (task_of job.now)) }
    ensures err { IfErr result (λ refusal. IsLookedAt refusal (task_of job.now)) }
{
    match check_job(alloc, &job.arena, job.root, &job.config) {
        Ok(plan) => Ok(plan),
        Err(error) => Err(refused(alloc, error)),
    }
}
