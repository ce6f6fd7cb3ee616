//! `explain`: the job is read and looked at, and the branches of its plan are told.

ghost use Rattle.std.specs.Prelude.{◌≡◌, ◌++◌, IfOk, IfErr, OnOk};
ghost use Rattle.std.specs.List.{flat_map};
ghost use Rattle.pipe_driver.specs.Texts.{texts as texts_of_plan};
ghost use Rattle.pipe_job.specs.JobSpelling.{task_of};
ghost use Rattle.pipe_plan.specs.Plan.{plan_of};
ghost use Rattle.pipe_cli.specs.Answers.{text_of};
ghost use Rattle.pipe_cli.specs.Contract.{Answered, Causes};
ghost use Rattle.pipe_cli.specs.Commands.ExplainCommand.{explain};
ghost use Rattle.pipe_cli.specs.Jobs.{IsLookedAt, IsSoundJob, branch_lines, ended};
ghost use Rattle.pipe_cli.specs.Status.{OneOf, status_of};

use crate::answer::Answer;
use crate::jobs::{checked, job_in};
use crate::status::Refusal;
use pipe_check::CheckedPlan;
use pipe_driver::explain as texts_of;
use pipe_job::Job;
use pipe_schema::Text;
use std::alloc::{AllocError, Global};

/// Puts a text and the end of its line.
fn push_line(lines: &mut Vec<u8>, text: &Text) -> Result<(), AllocError>
    ensures { OnOk result (lines.new.items ≡ lines.old.items ++ ended text.now) }
{
    lines.extend_from_slice(text.as_bytes())?;
    lines.push(b'\n')?;
    Ok(())
}

/// Texts, each with the end of its line.
fn ended_lines(alloc: Global, texts: &[Text]) -> Result<Vec<u8>, AllocError>
    ensures { IfOk result (λ lines. lines.items ≡ flat_map ended texts.now) }
{
    let mut lines = Vec::new(alloc);
    for text in texts {
        push_line(&mut lines, text)?;
    }
    Ok(lines)
}

/// The texts of a plan's branches, each with the end of its line.
fn branch_lines(alloc: Global, plan: &CheckedPlan) -> Result<Vec<u8>, AllocError>
    ensures { let checked = plan_of plan.now.arena in
        IfOk result (λ lines. lines.items ≡ flat_map ended (texts_of_plan checked plan.now.root)) }
{
    let texts = texts_of(alloc, plan)?;
    ended_lines(alloc, texts.as_slice())
}

/// The lines of the branches of a job that may be run.
fn lines_of(alloc: Global, job: &Job) -> Result<Vec<u8>, Refusal>
    ensures sound { OnOk result (IsSoundJob (task_of job.now)) }
    ensures lines { IfOk result (λ text. text.items ≡ branch_lines (task_of job.now)) }
    ensures err { IfErr result (λ r. IsLookedAt r (task_of job.now)) }
{
    let plan = checked(alloc, job)?;
    let text = branch_lines(alloc, &plan)?;
    Ok(text)
}

/// The branches of the plan of the job that the bytes are.
#[tactic(auto, using(crate::proofs::JobLemmas::unread_looked, crate::proofs::JobLemmas::unread_looked_only, crate::proofs::JobLemmas::looked_told, crate::proofs::JobLemmas::looked_only, crate::proofs::JobLemmas::looked_answer))]
pub(crate) fn explain(alloc: Global, bytes: Vec<u8>) -> Result<Answer, Refusal>
    ensures ok { IfOk result (λ answer. Answered explain bytes.items (text_of answer)) }
    ensures err { IfErr result (λ r. Causes explain r bytes.items) }
    ensures only { IfErr result (λ r. OneOf explain.statuses (status_of r)) }
{
    let job = job_in(alloc, bytes)?;
    let text = lines_of(alloc, &job)?;
    Ok(Answer::Made(text))
}
