//! Jobs in JSON.

ghost use Rattle.std.specs.Prelude.{◌≡◌, IfOk, IfSome, IfNone, IsErrOf};
ghost use Rattle.pipe_value.specs.View.{view, members_view};
ghost use Rattle.pipe_job.specs.Kinds.{is_job, is_job_back};
ghost use Rattle.pipe_job.specs.JobSpelling.{IsJobBack, PartsFit, Spells, Task, task_of, task_spelling};
ghost use Rattle.pipe_job.specs.Reads.{ReadWhere};
ghost use Rattle.pipe_job.specs.Reading.{Reading, ReadsJob, ReadsNoJob, ReadsNothing};

use crate::members::Members;
use crate::misread::Misread;
use crate::spelled::Spelled;
use crate::version::{arena_has_int128, version_of};
use pipe_frame::DataFrame;
use pipe_plan::{Arena, IR, PipeConfig};
use pipe_schema::List;
use pipe_value::{ReadError, Value};
use std::alloc::{AllocError, Global};
use thiserror::Error;

/// A plan, the frames that it scans, and how it is run.
#[derive(Debug)]
pub struct Job {
    /// 1 or 2. Only version 2 has the type Int128.
    pub version: u32,
    pub config: PipeConfig,
    pub arena: Arena,
    /// The number of the node whose rows are asked for.
    pub root: u32,
}

impl Drop for Job {
    fn drop(self) {
        let Job {
            version: _,
            config: _,
            arena,
            root: _,
        } = self;
        drop(arena);
    }
}

/// What comes of a job from its row limit on.
#[derive(Clone, Copy)]
pub struct JobBack {
    pub row_limit: u32,
    pub version: u32,
    pub workers: u32,
}

/// The last members of a job, from its row limit on.
pub fn back_of(alloc: Global, members: &mut Members) -> Result<JobBack, Misread>
    ensures { ReadWhere (is_job_back (members_view members.old.rest))
        (IsJobBack (members_view members.old.rest)) result }
{
    let row_limit = members.field::<u32>(alloc, "row_limit")?;
    let version = version_of(members.take("version")?)?;
    let workers = members.field::<u32>(alloc, "workers")?;
    members.end()?;
    Ok(JobBack {
        row_limit,
        version,
        workers,
    })
}

impl Spelled for Job {
    ghost spelling = { λ job. task_spelling (task_of job) };

    ghost fits = { λ job. PartsFit (task_of job) };

    ghost shape = { is_job };

    /// Whether the types are those of the version isn't looked at here.
    #[tactic(auto, using(crate::proofs::Formulas::node_lists))]
    fn read(alloc: Global, value: &Value) -> Result<Job, Misread> {
        let mut members = Members::of(value)?;
        let chunk_rows = members.field::<u32>(alloc, "chunk_rows")?;
        let frames = members.field::<List<DataFrame>>(alloc, "frames")?;
        let nodes = members.field::<List<IR>>(alloc, "plan")?;
        let root = members.field::<u32>(alloc, "root")?;
        let JobBack {
            row_limit,
            version,
            workers,
        } = back_of(alloc, &mut members)?;
        Ok(Job {
            version,
            config: PipeConfig {
                workers,
                chunk_rows,
                row_limit,
            },
            arena: Arena { nodes, frames },
            root,
        })
    }
}

/// The job that a value spells, none exactly where it spells no job.
#[tactic(auto, using(crate::proofs::Again::no_task))]
pub fn job_of(alloc: Global, value: &Value) -> Result<Option<Job>, AllocError>
    ensures found { IfOk result
        (λ found. IfSome found (λ job. Spells (view value.now) (task_of job))) }
    ensures none { IfOk result
        (λ found. IfNone found ((task : Task) → Spells (view value.now) task → ⊥)) }
{
    match Job::read(alloc, value) {
        Ok(job) => if job.version == 1 && arena_has_int128(&job.arena) {
            Ok(None)
        } else {
            Ok(Some(job))
        },
        Err(Misread::Other) => Ok(None),
        Err(Misread::Memory) => Err(AllocError),
    }
}

/// Why bytes give no job.
#[derive(Debug, Drop, PartialEq, Eq, Error)]
pub enum JobError {
    /// They are no JSON text.
    #[error("BadText")]
    BadText,
    /// The value spells no job.
    #[error("BadJob")]
    BadJob,
    /// Want of memory.
    #[error("Memory")]
    Memory,
}

/// The value that bytes read as.
pub fn read_value(alloc: Global, bytes: &[u8]) -> Result<Value, JobError>
    ensures value { IfOk result (λ v. Reading bytes.now (view v)) }
    ensures bad_text { IsErrOf result JobError.BadText → ReadsNothing bytes.now }
    ensures no_other { IsErrOf result JobError.BadJob → ⊥ }
{
    match Value::from_slice(alloc, bytes) {
        Ok(value) => Ok(value),
        Err(ReadError::BadText) => Err(JobError::BadText),
        Err(ReadError::Memory) => Err(JobError::Memory),
    }
}

/// The job that bytes spell. `BadText` where they are no JSON text, `BadJob` exactly where the value read spells
/// no job.
pub fn read_job(alloc: Global, bytes: &[u8]) -> Result<Job, JobError>
    ensures job { IfOk result (λ job. ReadsJob bytes.now (task_of job)) }
    ensures bad_text { IsErrOf result JobError.BadText → ReadsNothing bytes.now }
    ensures bad_job { IsErrOf result JobError.BadJob → ReadsNoJob bytes.now }
{
    let value = read_value(alloc, bytes)?;
    match job_of(alloc, &value) {
        Ok(Some(job)) => Ok(job),
        Ok(None) => Err(JobError::BadJob),
        Err(_) => Err(JobError::Memory),
    }
}
