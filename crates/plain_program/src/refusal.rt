//! The lines that say why there are no rows.

use pipe_plan::PipeError;
use pipe_schema::Text;
use serde_json::Value;
use std::alloc::{AllocError, Global};

pub(crate) const BAD_WORDS: &str = "error 1: bad words\n";

pub(crate) const NOT_JSON: &str = "error 4: not JSON\n";

pub(crate) const NOT_A_JOB: &str = "error 5: not a job\n";

pub(crate) const BAD_CONFIG: &str = "error 6: BadConfig\n";

pub(crate) const TOO_MANY_NODES: &str = "error 7: TooMany at node 4096\n";

/// A name as JSON text.
fn quoted(alloc: Global, name: &Text) -> Result<String, AllocError> {
    let value = Value::String(String::from_str(alloc, name.as_str())?);
    value.to_string(alloc)
}

/// The line of an error at a node.
fn node_line(alloc: Global, error: &str, n: u32) -> Result<String, AllocError> {
    format!(in alloc; "error 6: {error} at node {n}\n")
}

/// The line of an error at a node that tells a name.
fn name_line(alloc: Global, error: &str, n: u32, name: &Text) -> Result<String, AllocError> {
    let name = quoted(alloc, name)?;
    format!(in alloc; "error 6: {error} at node {n}: {name}\n")
}

/// The line of a node with too many rows.
pub(crate) fn too_many_line(alloc: Global, n: u32) -> Result<String, AllocError> {
    format!(in alloc; "error 7: TooMany at node {n}\n")
}

/// The line of a fault of a plan.
pub(crate) fn fault_line(alloc: Global, fault: &PipeError) -> Result<String, AllocError> {
    match fault {
        PipeError::BadNode(n) => node_line(alloc, "BadNode", *n),
        PipeError::UnknownColumn(n, name) => name_line(alloc, "UnknownColumn", *n, name),
        PipeError::DuplicateName(n, name) => name_line(alloc, "DuplicateName", *n, name),
        PipeError::TypeMismatch(n) => node_line(alloc, "TypeMismatch", *n),
        PipeError::BadJoin(n) => node_line(alloc, "BadJoin", *n),
        PipeError::BadSort(n) => node_line(alloc, "BadSort", *n),
        PipeError::TooMany(n) => too_many_line(alloc, *n),
        PipeError::BadConfig => String::from_str(alloc, BAD_CONFIG),
        PipeError::Stopped => String::from_str(alloc, "error 8: stopped\n"),
        PipeError::Memory => Err(AllocError),
    }
}
