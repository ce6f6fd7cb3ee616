//! What an input is answered.

ghost use Rattle.pipe_replay.specs.KeptWorld.{IsOf};

use crate::input::events_of;
use crate::items::items_of;
use crate::table::text_of_rows;
use pipe_check::{CheckedPlan, check_plan};
use pipe_job::{Job, job_of, read_value};
use pipe_plain::schema;
use pipe_plan::PipeError;
use pipe_replay::{Played, World, play};
use pipe_rows::Fnv;
use pipe_value::{Item, Value};
use std::alloc::{AllocError, Global};

/// A word on a line.
fn line(alloc: Global, word: &str) -> Result<Vec<u8>, AllocError> {
    let mut text = Vec::new(alloc);
    text.extend_from_slice(word.as_bytes())?;
    text.push(b'\n')?;
    Ok(text)
}

/// Whether the list was complete, and the rows of the root.
fn end_of(
    alloc: Global,
    job: &Job,
    plan: &CheckedPlan,
    world: &World,
) -> Result<Vec<u8>, AllocError>
    requires { IsOf plan.now world.now }
{
    let word = if world.is_complete(plan) {
        "complete"
    } else {
        "incomplete"
    };
    let mut text = line(alloc, word)?;
    let fields = schema(alloc, &job.arena, job.root)?;
    let rows = text_of_rows(alloc, fields.as_slice(), world.root_bag())?;
    text.extend_from_slice(rows.as_slice())?;
    Ok(text)
}

/// The answer to a list of events over a checked plan.
fn answer_of_plan(
    alloc: Global,
    job: &Job,
    plan: &CheckedPlan,
    values: &[Item],
) -> Result<Vec<u8>, AllocError> {
    let workers = job.config.workers;
    if workers == 0 || workers > 256 {
        return line(alloc, "bad workers");
    }
    let events = events_of(alloc, &job.arena, values)?;
    let Played { world, count } = play(alloc, plan, &Fnv, workers, events.as_slice())?;
    if count < values.len() {
        line(alloc, format!(in alloc; "refused {count}")?.as_str())
    } else {
        end_of(alloc, job, plan, &world)
    }
}

/// The answer to a list of events over a job.
fn answer_of_job(alloc: Global, job: &Job, values: &[Item]) -> Result<Vec<u8>, AllocError> {
    match check_plan(alloc, &job.arena, job.root) {
        Ok(plan) => answer_of_plan(alloc, job, &plan, values),
        Err(PipeError::TooMany(_)) => line(alloc, "too many nodes"),
        Err(PipeError::Memory) => Err(AllocError),
        Err(_) => line(alloc, "fault"),
    }
}

/// The answer to the job and the events of an object.
fn answer_of_parts(alloc: Global, job: &Value, events: &Value) -> Result<Vec<u8>, AllocError> {
    let Some(values) = items_of(alloc, events)? else {
        return line(alloc, "bad input");
    };
    match job_of(alloc, job)? {
        Some(job) => answer_of_job(alloc, &job, values.as_slice()),
        None => line(alloc, "bad input"),
    }
}

/// The answer to the input that the bytes are.
pub(crate) fn answer_to(alloc: Global, bytes: &[u8]) -> Result<Vec<u8>, AllocError> {
    let Ok(value) = read_value(alloc, bytes) else {
        return line(alloc, "bad input");
    };
    match (value.get("job"), value.get("events")) {
        (Some(job), Some(events)) => answer_of_parts(alloc, job, events),
        _ => line(alloc, "bad input"),
    }
}
