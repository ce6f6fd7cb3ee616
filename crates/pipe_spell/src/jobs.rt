//! Jobs as values, and as text.

ghost use Rattle.std.specs.Prelude.{◌≡◌, ◌≤◌, IfOk, OnOk};
ghost use Rattle.serde_json.specs.Data.{depth};
ghost use Rattle.serde_json.specs.Read.{max_depth};
ghost use Rattle.pipe_value.specs.View.{view};
ghost use Rattle.pipe_job.specs.JobSpelling.{Spells, TaskFits, task_of, task_spelling};
ghost use Rattle.pipe_job.specs.Line.{line_of};
ghost use Rattle.pipe_job.specs.Reading.{ReadsJob};
ghost use Rattle.pipe_spell.specs.Ranges.{TaskInRange};

use crate::object::Object;
use crate::text::line_of_value;
use pipe_job::Job;
use pipe_value::Value;
use std::alloc::{AllocError, Global};

/// The value that spells a job, where any value does.
#[tactic(auto, using(pipe_job::proofs::Formulas::node_lists, crate::proofs::Lined::job_in_range, crate::proofs::Lined::spells_task))]
pub fn value_of_job(alloc: Global, job: &Job) -> Result<Value, AllocError>
    ensures spelled { IfOk result (λ value. view value ≡ task_spelling (task_of job.now)) }
    ensures ranges { OnOk result (TaskInRange (task_of job.now)) }
    ensures spells { IfOk result (λ value. TaskFits (task_of job.now)
        → Spells (view value) (task_of job.now)) }
{
    let mut object = Object::new(alloc);
    object.field(alloc, "workers", &job.config.workers)?;
    object.field(alloc, "version", &job.version)?;
    object.field(alloc, "row_limit", &job.config.row_limit)?;
    object.field(alloc, "root", &job.root)?;
    object.field(alloc, "plan", &job.arena.nodes)?;
    object.field(alloc, "frames", &job.arena.frames)?;
    object.field(alloc, "chunk_rows", &job.config.chunk_rows)?;
    Ok(object.into_value())
}

/// The line of a job: its compact text and a newline. A text that nests no deeper than the reader goes is read as that
/// job, where any value spells the job.
#[tactic(auto, using(crate::proofs::Lined::line_text, crate::proofs::Lined::line_reads))]
pub fn job_line(alloc: Global, job: &Job) -> Result<Vec<u8>, AllocError>
    ensures text { IfOk result (λ line. line.items ≡ line_of (task_spelling (task_of job.now))) }
    ensures ranges { OnOk result (TaskInRange (task_of job.now)) }
    ensures reads_back { IfOk result (λ line. TaskFits (task_of job.now)
        → depth (task_spelling (task_of job.now)) ≤ max_depth
        → ReadsJob line.items (task_of job.now)) }
{
    let value = value_of_job(alloc, job)?;
    line_of_value(alloc, &value)
}
