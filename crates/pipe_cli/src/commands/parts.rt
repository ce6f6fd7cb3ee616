//! `parts`: the job is read and looked at, and how the scans of its plan may be cut is told.

ghost use Rattle.std.specs.Prelude.{◌≡◌, true, false, IfOk, IfErr, OnOk};
ghost use Rattle.std.specs.Option.{option_copied};
ghost use Rattle.std.specs.List.{list_all};
ghost use Rattle.pipe_job.specs.JobSpelling.{task_of};
ghost use Rattle.pipe_cli.specs.Answers.{text_of};
ghost use Rattle.pipe_cli.specs.Commands.PartsCommand.{HasFramesOf, IsPartsText, frame_size, frame_sizes, has_no_row, parts, sizes_for};
ghost use Rattle.pipe_cli.specs.Contract.{Answered, Causes, Unread};
ghost use Rattle.pipe_cli.specs.Heights.{heights_told};
ghost use Rattle.pipe_cli.specs.Jobs.{IsLookedAt, IsSoundJob, ReadsJobOf, jobs_of};
ghost use Rattle.pipe_cli.specs.Status.{OneOf, status_of};

use crate::answer::Answer;
use crate::heights::heights_told;
use crate::jobs::{checked, job_in};
use crate::status::Refusal;
use pipe_frame::DataFrame;
use pipe_job::Job;
use pipe_parts::parts_line;
use pipe_schema::Text;
use std::alloc::{AllocError, Global};

/// Whether no frame has a row.
fn are_empty(frames: &[DataFrame]) -> bool
    ensures { result ≡ list_all has_no_row frames.now }
{
    for frame in frames {
        if frame.height() != 0 {
            return false;
        }
    }
    true
}

/// How many rows a frame counts for: as many as it has, or one where no frame has any.
fn size_of(empty: bool, frame: &DataFrame) -> u64
    ensures { result ≡ frame_size empty frame.now }
{
    if empty { 1 } else { frame.height() as u64 }
}

/// How many rows each frame counts for.
fn sizes_of(alloc: Global, frames: &[DataFrame]) -> Result<Vec<u64>, AllocError>
    ensures { IfOk result (λ sizes. sizes.items ≡ frame_sizes frames.now) }
{
    let empty = are_empty(frames);
    let mut sizes = Vec::with_capacity(alloc, frames.len())?;
    for frame in frames {
        sizes.push(size_of(empty, frame))?;
    }
    Ok(sizes)
}

/// How many rows each frame of a job counts for: as many as are told, or as it has.
fn sizes_for(
    alloc: Global,
    told: Option<&[u64]>,
    frames: &[DataFrame],
) -> Result<Vec<u64>, AllocError>
    ensures { IfOk result (λ sizes.
        sizes.items ≡ sizes_for (option_copied told.entry) frames.now) }
{
    match told {
        Some(heights) => Vec::from_slice(alloc, heights),
        None => sizes_of(alloc, frames),
    }
}

/// Whether a job has as many frames as are told of.
fn has_frames_of(told: Option<&[u64]>, job: &Job) -> bool
    ensures yes { result ≡ true → HasFramesOf (option_copied told.entry) (task_of job.now) }
    ensures no { result ≡ false → HasFramesOf (option_copied told.entry) (task_of job.now) → ⊥ }
{
    match told {
        Some(heights) => job.arena.frames.len() == heights.len(),
        None => true,
    }
}

/// The job that the bytes are, with as many frames as are told of.
#[tactic(auto, using(crate::proofs::JobLemmas::unread_of, crate::proofs::JobLemmas::other_job, crate::proofs::JobLemmas::job_of_those))]
fn job_of_frames(alloc: Global, bytes: Vec<u8>, told: Option<&[u64]>) -> Result<Job, Refusal>
    ensures ok { IfOk result (λ job.
        ReadsJobOf (HasFramesOf (option_copied told.entry)) bytes.items (task_of job)) }
    ensures err { IfErr result (λ r.
        Unread (jobs_of (HasFramesOf (option_copied told.entry))) r bytes.items) }
{
    let job = job_in(alloc, bytes)?;
    if !has_frames_of(told, &job) {
        return Err(Refusal::NotJob);
    }
    Ok(job)
}

/// The line of the plan of a job that may be run.
fn line_of(alloc: Global, job: &Job, told: Option<&[u64]>) -> Result<Vec<u8>, Refusal>
    ensures sound { OnOk result (IsSoundJob (task_of job.now)) }
    ensures line { IfOk result
        (λ text. IsPartsText (option_copied told.entry) (task_of job.now) text.items) }
    ensures err { IfErr result (λ r. IsLookedAt r (task_of job.now)) }
{
    let plan = checked(alloc, job)?;
    let sizes = sizes_for(alloc, told, job.arena.frames.as_slice())?;
    let text = parts_line(alloc, &plan, sizes.as_slice())?;
    Ok(text)
}

/// How the scans of the plan of the job that the bytes are may be cut, over the numbers of rows that are told.
#[tactic(auto, using(crate::proofs::JobLemmas::unread_those, crate::proofs::JobLemmas::unread_those_only, crate::proofs::JobLemmas::those_told, crate::proofs::JobLemmas::those_only, crate::proofs::JobLemmas::those_answer))]
fn parts_told(alloc: Global, bytes: Vec<u8>, told: Option<&[u64]>) -> Result<Answer, Refusal>
    ensures ok { IfOk result (λ answer.
        Answered (parts (option_copied told.entry)) bytes.items (text_of answer)) }
    ensures err { IfErr result (λ r. Causes (parts (option_copied told.entry)) r bytes.items) }
    ensures only { IfErr result (λ r.
        OneOf (parts (option_copied told.entry)).statuses (status_of r)) }
{
    let job = job_of_frames(alloc, bytes, told)?;
    let text = line_of(alloc, &job, told)?;
    Ok(Answer::Made(text))
}

/// How the scans of the plan of the job that the bytes are may be cut, over the numbers of rows that a word tells.
pub(crate) fn parts(alloc: Global, bytes: Vec<u8>, word: Option<&Text>) -> Result<Answer, Refusal>
    ensures ok { IfOk result (λ answer.
        Answered (parts (heights_told (option_copied word.entry))) bytes.items (text_of answer)) }
    ensures err { IfErr result (λ r.
        Causes (parts (heights_told (option_copied word.entry))) r bytes.items) }
    ensures only { IfErr result (λ r.
        OneOf (parts (heights_told (option_copied word.entry))).statuses (status_of r)) }
{
    match heights_told(alloc, word)? {
        Some(heights) => parts_told(alloc, bytes, Some(heights.as_slice())),
        None => parts_told(alloc, bytes, None),
    }
}
