//! `reconcile`: two tables are read and reconciled by a key, and the partners of their rows are told.

ghost use Rattle.std.specs.Prelude.{◌≡◌, true, IfOk, IfErr, IsErrOf, OnOk};
ghost use Rattle.pipe_schema.specs.Counts.{Counts, Rises};
ghost use Rattle.pipe_cli.specs.Answers.{text_of};
ghost use Rattle.pipe_cli.specs.Contract.{Answered, Because, Causes};
ghost use Rattle.pipe_cli.specs.Commands.ReconcileCommand.{reconcile};
ghost use Rattle.pipe_cli.specs.Recons.{IsSoundRecon, IsWithinRecon, recon_of};
ghost use Rattle.pipe_cli.specs.Status.{OneOf, status_of, yes_in};

use crate::answer::Answer;
use crate::recons::recon_job_in;
use crate::refused::refused;
use crate::status::Refusal;
use pipe_recon::{Recon, ReconJob, recon_lines};
use pipe_reconcile::reconcile as partners_of;
use pipe_schema::{Gate, StopCheck};
use std::alloc::Global;
use std::thread::Threads;

/// The partners of the rows of two tables.
#[tactic(auto, using(crate::proofs::ReconLemmas::told_recon, crate::proofs::RuleLemmas::told_yes, crate::proofs::RuleLemmas::told_last))]
fn recon_of<T: Threads + Sync, C: StopCheck, G: Gate + Sync>(
    rt: &T,
    alloc: Global,
    job: &ReconJob,
    stop: &mut C,
    gate: &G,
) -> Result<Recon, Refusal>
    ensures sound { OnOk result (IsSoundRecon job.now) }
    ensures within { OnOk result (IsWithinRecon job.now) }
    ensures recon { IfOk result (λ recon. recon ≡ recon_of job.now) }
    ensures err { IfErr result (λ r. Because reconcile r job.now) }
    ensures asked { OnOk result (Rises (C.asked stop.old) (C.asked stop.new)) }
    ensures yes { Counts (yes_in result) (C.yes stop.old) (C.yes stop.new) }
    ensures last { IsErrOf result Refusal.Stopped → C.last_answer stop.new ≡ true }
{
    match partners_of(
        rt,
        alloc,
        &job.left,
        &job.right,
        &job.spec,
        &job.config,
        stop,
        gate,
    ) {
        Ok(recon) => Ok(recon),
        Err(error) => Err(refused(alloc, error)),
    }
}

/// The lines of the reconciliation that the bytes are.
#[tactic(auto, using(crate::proofs::RuleLemmas::yes_passed, crate::proofs::ReconLemmas::unread_recon, crate::proofs::ReconLemmas::recon_told, crate::proofs::ReconLemmas::recon_answer, crate::proofs::ReconLemmas::recon_only))]
pub(crate) fn reconcile<T: Threads + Sync, C: StopCheck, G: Gate + Sync>(
    rt: &T,
    alloc: Global,
    bytes: Vec<u8>,
    stop: &mut C,
    gate: &G,
) -> Result<Answer, Refusal>
    ensures ok { IfOk result (λ answer. Answered reconcile bytes.items (text_of answer)) }
    ensures err { IfErr result (λ r. Causes reconcile r bytes.items) }
    ensures only { IfErr result (λ r. OneOf reconcile.statuses (status_of r)) }
    ensures asked { OnOk result (Rises (C.asked stop.old) (C.asked stop.new)) }
    ensures yes { Counts (yes_in result) (C.yes stop.old) (C.yes stop.new) }
    ensures last { IsErrOf result Refusal.Stopped → C.last_answer stop.new ≡ true }
{
    let job = recon_job_in(alloc, bytes)?;
    let recon = recon_of(rt, alloc, &job, stop, gate)?;
    let text = recon_lines(alloc, &recon)?;
    Ok(Answer::Made(text))
}
