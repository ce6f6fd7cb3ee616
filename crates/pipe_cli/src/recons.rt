//! Reconciliations: how one is read.

ghost use Rattle.std.specs.Prelude.{IfOk, IfErr};
ghost use Rattle.pipe_recon.specs.ReconReading.{ReadsReconJob};
ghost use Rattle.pipe_cli.specs.Contract.{Unread};
ghost use Rattle.pipe_cli.specs.Recons.{recon_kind};

use crate::status::Refusal;
use pipe_job::JobError;
use pipe_recon::{ReconJob, read_recon_job};
use std::alloc::Global;

/// What the bytes spell: two tables, a key and the numbers of a run.
pub(crate) fn recon_job_in(alloc: Global, bytes: Vec<u8>) -> Result<ReconJob, Refusal>
    ensures ok { IfOk result (λ job. ReadsReconJob bytes.items job) }
    ensures err { IfErr result (λ refusal. Unread recon_kind refusal bytes.items) }
{
    match read_recon_job(alloc, bytes.as_slice()) {
        Ok(job) => Ok(job),
        Err(JobError::BadText) => Err(Refusal::NotJson),
        Err(JobError::BadJob) => Err(Refusal::NotJob),
        Err(JobError::Memory) => Err(Refusal::Memory),
    }
}
