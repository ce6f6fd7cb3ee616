//! What is told of two tables, their join and edits of them.

ghost use Rattle.pipe_value.specs.View.{view};
ghost use Rattle.pipe_job.specs.Reading.{Reading};

use pipe_check::{CheckedPlan, check_plan};
use pipe_expr::JoinType;
use pipe_job::Job;
use pipe_plan::{Arena, IR, PipeConfig, PipeError};
use pipe_schema::List;
use pipe_value::Value;
use pipe_view::{KeptJoin, Replay, replay_of};
use pipe_why::{fault_text, outcome_text, push_config};
use pipe_why_text::push_count;
use pipe_why_value::{InputKind, push_misfit};
use std::alloc::{AllocError, Global};
use std::fmt::Write;

/// The number of the join, behind those of the two tables.
const JOIN: u32 = 2;

/// A join that is to be kept, and how many edits are to be played.
#[derive(Drop)]
struct KeptJob {
    /// The scans of both tables, 0 and 1, and their join.
    job: Job,
    how: JoinType,
    edits: usize,
}

/// The scan of a frame.
fn scan(frame: u32) -> IR {
    IR::DataFrameScan {
        frame,
        columns: None,
    }
}

/// The join that two tables and edits of them are of, as a job.
fn kept_job(alloc: Global, replay: Replay) -> Result<KeptJob, AllocError> {
    let Replay {
        version,
        row_limit,
        left,
        right,
        join,
        edits,
    } = replay;
    let KeptJoin {
        left_on,
        right_on,
        options,
    } = join;
    let how = options.how;
    let mut frames = List::new(alloc);
    frames.push(left)?;
    frames.push(right)?;
    let mut nodes = List::new(alloc);
    nodes.push(scan(0))?;
    nodes.push(scan(1))?;
    nodes.push(IR::Join {
        left: 0,
        right: 1,
        left_on,
        right_on,
        options,
    })?;
    let job = Job {
        version,
        config: PipeConfig {
            workers: 1,
            chunk_rows: 1,
            row_limit,
        },
        arena: Arena { nodes, frames },
        root: JOIN,
    };
    Ok(KeptJob {
        job,
        how,
        edits: edits.len(),
    })
}

/// The word of a kind of join that isn't kept, none of another.
fn unkept_word(how: JoinType) -> Option<&'static str> {
    match how {
        JoinType::Cross => Some("cross"),
        JoinType::Semi => Some("semi"),
        JoinType::Anti => Some("anti"),
        JoinType::Inner | JoinType::Left | JoinType::Full => None,
    }
}

/// Appends a fault.
fn push_fault(out: &mut String, fault: &str) -> Result<(), AllocError> {
    out.push_str("edits with a fault, by which replay-edits ends with status 6\n")?;
    out.push_str(fault)
}

/// Appends what edits of a good join will do, or that its kind isn't kept.
fn push_kept(
    alloc: Global,
    out: &mut String,
    kept: &KeptJob,
    plan: &CheckedPlan,
) -> Result<(), AllocError> {
    if let Some(word) = unkept_word(kept.how) {
        push_fault(
            out,
            "BadJoin at node 2, a Join: a kept join is an inner, a left or a full one\nexpected: how: one of \"inner\", \"left\", \"full\"\n",
        )?;
        return write!(out, "found: \"{word}\"\n");
    }
    out.push_str("edits without a fault: ")?;
    push_count(out, kept.edits, "edit")?;
    out.push_str(", and then ")?;
    let more = outcome_text(alloc, plan, kept.job.config.row_limit)?;
    out.push_str(more.as_str())
}

/// Appends what is told of two tables, their join and edits.
fn push_replay(alloc: Global, out: &mut String, kept: &KeptJob) -> Result<(), AllocError> {
    let mut told = String::new(alloc);
    if push_config(&mut told, &kept.job.config)? {
        return push_fault(out, told.as_str());
    }
    match check_plan(alloc, &kept.job.arena, JOIN) {
        Ok(plan) => push_kept(alloc, out, kept, &plan),
        Err(PipeError::Memory) => Err(AllocError),
        Err(error) => {
            let fault = fault_text(alloc, &kept.job, &error)?;
            push_fault(out, fault.as_str())
        }
    }
}

/// Appends what is told of a value that should spell two tables, their join and edits.
pub(crate) fn push_edits(
    alloc: Global,
    out: &mut String,
    bytes: &[u8],
    value: &Value,
) -> Result<(), AllocError>
    requires { Reading bytes.now (view value.now) }
{
    match replay_of(alloc, value)? {
        Some(replay) => {
            let kept = kept_job(alloc, replay)?;
            push_replay(alloc, out, &kept)
        }
        None => {
            out.push_str("not edits of two tables: ")?;
            push_misfit(alloc, out, bytes, value, InputKind::Edits)
        }
    }
}
