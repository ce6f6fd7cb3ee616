//! What is told of a job whose numbers or plan have a fault.

ghost use Rattle.std.specs.Prelude.{◌≡◌, ◌++◌, List, ℕ, string_bytes, IfOk, OnOk};
ghost use Rattle.pipe_why.specs.Heads.{at_node, fault_head};

use crate::bad_joins::push_bad_join;
use crate::bad_nodes::push_bad_node;
use crate::bad_sorts::push_bad_sort;
use crate::config::BadNumber;
use crate::duplicates::push_duplicate;
use crate::mistyped::push_mistyped;
use crate::unknown::push_unknown;
use itoa::Buffer;
use pipe_job::Job;
use pipe_plan::{PipeConfig, PipeError};
use std::alloc::{AllocError, Global};
use std::fmt::Write;

/// Appends what is told of the numbers of a job behind the fault's name.
fn push_numbers(out: &mut String, config: &PipeConfig) -> Result<(), AllocError> {
    match BadNumber::of(config) {
        Some(number) => number.push(out),
        None => out.push_str("\n"),
    }
}

/// Appends what is told of an error by which a job is refused, behind its name and the node at which it stands.
fn push_fault(
    alloc: Global,
    out: &mut String,
    job: &Job,
    error: &PipeError,
) -> Result<(), AllocError> {
    let arena = &job.arena;
    match error {
        PipeError::BadConfig => push_numbers(out, &job.config),
        PipeError::BadNode(n) => push_bad_node(alloc, out, arena, job.root, *n),
        PipeError::UnknownColumn(n, name) => push_unknown(alloc, out, arena, *n, name),
        PipeError::DuplicateName(n, name) => push_duplicate(alloc, out, arena, *n, name),
        PipeError::TypeMismatch(n) => push_mistyped(alloc, out, arena, *n),
        PipeError::BadJoin(n) => push_bad_join(alloc, out, arena, *n),
        PipeError::BadSort(n) => push_bad_sort(alloc, out, arena, *n),
        PipeError::TooMany(_) => write!(
            out,
            ": the plan has too many nodes\nexpected: at most 4096 nodes\nfound: {}\n",
            arena.nodes.len()
        ),
        PipeError::Stopped | PipeError::Memory => out.push_str("\n"),
    }
}

/// Appends the name of a fault and the number of its node.
fn push_at_node(out: &mut String, name: &str, n: u32) -> Result<(), AllocError>
    ensures { OnOk result (string_bytes out.new ≡ string_bytes out.old ++ at_node name.now n) }
{
    let mut digits = Buffer::new();
    out.push_str(name)?;
    out.push_str(" at node ")?;
    out.push_str(digits.format(n))
}

/// Appends the name of a fault and, where it stands at one, the number of its node.
fn push_head(out: &mut String, error: &PipeError) -> Result<(), AllocError>
    ensures { OnOk result (string_bytes out.new ≡ string_bytes out.old ++ fault_head error.now) }
{
    match error {
        PipeError::BadConfig => out.push_str("BadConfig"),
        PipeError::BadNode(n) => push_at_node(out, "BadNode", *n),
        PipeError::UnknownColumn(n, _) => push_at_node(out, "UnknownColumn", *n),
        PipeError::DuplicateName(n, _) => push_at_node(out, "DuplicateName", *n),
        PipeError::TypeMismatch(n) => push_at_node(out, "TypeMismatch", *n),
        PipeError::BadJoin(n) => push_at_node(out, "BadJoin", *n),
        PipeError::BadSort(n) => push_at_node(out, "BadSort", *n),
        PipeError::TooMany(_) => out.push_str("TooMany"),
        PipeError::Stopped => out.push_str("stopped"),
        PipeError::Memory => out.push_str("out of memory"),
    }
}

/// What is told of an error by which a job is refused: its name, the node at which it stands, and what is wrong there.
pub fn fault_text(alloc: Global, job: &Job, error: &PipeError) -> Result<String, AllocError>
    ensures { IfOk result (λ text.
        (more : List ℕ) × (string_bytes text ≡ fault_head error.now ++ more)) }
{
    let mut more = String::new(alloc);
    push_fault(alloc, &mut more, job, error)?;
    let mut out = String::new(alloc);
    push_head(&mut out, error)?;
    out.push_str(more.as_str())?;
    Ok(out)
}
