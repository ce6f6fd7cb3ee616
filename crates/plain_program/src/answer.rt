//! What a job ends with.

ghost use Rattle.std.specs.Prelude.{◌<◌, ◌^◌, length};

use crate::refusal::{BAD_CONFIG, NOT_A_JOB, NOT_JSON, TOO_MANY_NODES, fault_line, too_many_line};
use crate::table::{first_above, text_of_rows};
use pipe_frame::Row;
use pipe_job::{Job, JobError, read_job};
use pipe_plain::{plan_fault, plan_rows, schema};
use pipe_plan::PipeConfig;
use pipe_schema::List;
use std::alloc::{AllocError, Global};

/// A status, and the lines of the rows where it is 0, else the line of the refusal.
#[derive(Drop)]
pub(crate) struct Answer {
    pub(crate) status: u8,
    pub(crate) text: Vec<u8>,
}

/// The answer of a status and a line.
fn refused(alloc: Global, status: u8, line: &str) -> Result<Answer, AllocError> {
    let mut text = Vec::new(alloc);
    text.extend_from_slice(line.as_bytes())?;
    Ok(Answer { status, text })
}

/// Whether the numbers of a run are within their limits.
fn is_good(config: &PipeConfig) -> bool {
    (1..=256).contains(&config.workers)
        && config.chunk_rows > 0
        && (1..=4294967294).contains(&config.row_limit)
}

/// The answer to a job of few nodes with a good config.
fn answer_of_plan(alloc: Global, job: &Job) -> Result<Answer, AllocError>
    requires { length job.now.arena.nodes < 2 ^ 32 }
{
    if let Some(fault) = plan_fault(alloc, &job.arena, job.root)? {
        return refused(alloc, 6, fault_line(alloc, &fault)?.as_str());
    }
    let tables = plan_rows(alloc, &job.arena)?;
    answer_of_tables(alloc, job, tables.as_slice())
}

/// The answer to a plan without a fault, from the rows of its nodes.
fn answer_of_tables(alloc: Global, job: &Job, tables: &[List<Row>]) -> Result<Answer, AllocError> {
    if let Some(n) = first_above(alloc, &job.arena, job.root, tables, job.config.row_limit)? {
        return refused(alloc, 7, too_many_line(alloc, n)?.as_str());
    }
    let fields = schema(alloc, &job.arena, job.root)?;
    let rows = match tables.get(job.root as usize) {
        Some(rows) => rows.as_slice(),
        None => &[],
    };
    let text = text_of_rows(alloc, fields.as_slice(), rows)?;
    Ok(Answer { status: 0, text })
}

/// The answer to a job.
fn answer_of_job(alloc: Global, job: &Job) -> Result<Answer, AllocError> {
    if !is_good(&job.config) {
        refused(alloc, 6, BAD_CONFIG)
    } else if job.arena.nodes.len() > 4096 {
        refused(alloc, 7, TOO_MANY_NODES)
    } else {
        answer_of_plan(alloc, job)
    }
}

/// The answer to the job that the bytes are.
pub(crate) fn answer_to(alloc: Global, bytes: &[u8]) -> Result<Answer, AllocError> {
    match read_job(alloc, bytes) {
        Ok(job) => answer_of_job(alloc, &job),
        Err(JobError::BadText) => refused(alloc, 4, NOT_JSON),
        Err(JobError::BadJob) => refused(alloc, 5, NOT_A_JOB),
        Err(JobError::Memory) => Err(AllocError),
    }
}
