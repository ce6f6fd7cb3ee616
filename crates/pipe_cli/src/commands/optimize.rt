//! `optimize`: the job is read and looked at, and a job with the same rows is written, whose filters stand low and whose
//! scans give no column that nobody needs.

ghost use Rattle.std.specs.Prelude.{◌≡◌, ◌≤◌, map, IfOk, IfErr, OnOk};
ghost use Rattle.pipe_job.specs.JobSpelling.{TaskFits, task_of};
ghost use Rattle.pipe_plan.specs.Node.{node_of};
ghost use Rattle.pipe_plan.specs.Plan.{plan_of};
ghost use Rattle.pipe_rules.specs.Sizes.{IsTooLarge, count_under};
ghost use Rattle.pipe_cli.specs.Answers.{text_of};
ghost use Rattle.pipe_cli.specs.Contract.{Answered, Because, Causes};
ghost use Rattle.pipe_cli.specs.Commands.OptimizeCommand.{optimize};
ghost use Rattle.pipe_cli.specs.Jobs.{IsSoundJob};
ghost use Rattle.pipe_cli.specs.Optimized.{IsBetter, IsBetterPlan, IsOptimized, most_under, nodes_under, with_nodes};
ghost use Rattle.pipe_cli.specs.Status.{OneOf, status_of};

use crate::answer::Answer;
use crate::jobs::{checked, job_in};
use crate::refused::refused;
use crate::status::Refusal;
use pipe_check::CheckedPlan;
use pipe_job::Job;
use pipe_optimize::{Rewritten, optimize as optimized};
use pipe_plan::PipeError;
use pipe_spell::job_line;
use std::alloc::Global;

/// A plan with its filters low, and without the columns that nobody needs.
fn better_plan(alloc: Global, plan: &CheckedPlan) -> Result<Rewritten, PipeError>
    ensures better { IfOk result (λ made. IsBetterPlan (plan_of plan.now.arena) plan.now.root
        (map node_of made.nodes) made.root) }
    ensures small { OnOk result
        (count_under (plan_of plan.now.arena).nodes plan.now.root ≤ most_under) }
    ensures err { IfErr result (IsTooLarge (plan_of plan.now.arena).nodes plan.now.root) }
{
    let made = optimized(alloc, plan)?;
    Ok(made)
}

/// The better plan of a job that may be run.
#[tactic(auto, using(crate::proofs::OptimizeLemmas::looked_optimize, crate::proofs::OptimizeLemmas::large_optimize, crate::proofs::OptimizeLemmas::made_better, crate::proofs::OptimizeLemmas::looked_optimize_only, crate::proofs::OptimizeLemmas::large_optimize_only))]
fn rewritten(alloc: Global, job: &Job) -> Result<Rewritten, Refusal>
    ensures sound { OnOk result (IsSoundJob (task_of job.now)) }
    ensures small { OnOk result (nodes_under (task_of job.now) ≤ most_under) }
    ensures made { IfOk result
        (λ made. IsBetter (task_of job.now)
        (with_nodes (task_of job.now) (map node_of made.nodes) made.root)) }
    ensures err { IfErr result (λ r. Because optimize r (task_of job.now)) }
    ensures only { IfErr result (λ r. OneOf optimize.statuses (status_of r)) }
{
    let plan = checked(alloc, job)?;
    match better_plan(alloc, &plan) {
        Ok(made) => Ok(made),
        Err(error) => Err(refused(alloc, error)),
    }
}

/// The line of the job with this plan in place of its own.
#[tactic(auto, using(crate::proofs::OptimizeLemmas::line_made))]
fn line_with(alloc: Global, job: Job, made: Rewritten) -> Result<Vec<u8>, Refusal>
    requires fits { TaskFits (task_of job) }
    requires made { IsBetter (task_of job)
        (with_nodes (task_of job) (map node_of made.nodes) made.root) }
    ensures line { IfOk result (λ line. IsOptimized (task_of job) line.items) }
    ensures err { IfErr result (λ r. r ≡ Refusal.Memory) }
{
    let Rewritten { nodes, root } = made;
    let mut better = job;
    better.arena.nodes = nodes;
    better.root = root;
    Ok(job_line(alloc, &better)?)
}

/// The job with the same rows, of the job that the bytes are.
#[tactic(auto, using(crate::proofs::OptimizeLemmas::optimize_told, crate::proofs::OptimizeLemmas::unread_optimize, crate::proofs::OptimizeLemmas::unread_optimize_only, crate::proofs::OptimizeLemmas::optimize_answer))]
pub(crate) fn optimize(alloc: Global, bytes: Vec<u8>) -> Result<Answer, Refusal>
    ensures ok { IfOk result (λ answer. Answered optimize bytes.items (text_of answer)) }
    ensures err { IfErr result (λ r. Causes optimize r bytes.items) }
    ensures only { IfErr result (λ r. OneOf optimize.statuses (status_of r)) }
{
    let job = job_in(alloc, bytes)?;
    let made = rewritten(alloc, &job)?;
    let line = line_with(alloc, job, made)?;
    Ok(Answer::Made(line))
}
