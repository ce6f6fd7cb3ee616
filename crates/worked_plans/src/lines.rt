//! A fault, and the names of columns, each as a line.

use pipe_plan::PipeError;
use pipe_schema::Field;
use std::alloc::{AllocError, Global};

/// The line of a fault.
pub(crate) fn fault_line(alloc: Global, fault: &PipeError) -> Result<String, AllocError> {
    match fault {
        PipeError::BadNode(n) => format!(in alloc; "BadNode at node {n}\n"),
        PipeError::UnknownColumn(n, name) => {
            format!(in alloc; "UnknownColumn at node {n}: \"{}\"\n", name.as_str())
        }
        PipeError::DuplicateName(n, name) => {
            format!(in alloc; "DuplicateName at node {n}: \"{}\"\n", name.as_str())
        }
        PipeError::TypeMismatch(n) => format!(in alloc; "TypeMismatch at node {n}\n"),
        PipeError::BadJoin(n) => format!(in alloc; "BadJoin at node {n}\n"),
        PipeError::BadSort(n) => format!(in alloc; "BadSort at node {n}\n"),
        PipeError::TooMany(n) => format!(in alloc; "TooMany at node {n}\n"),
        PipeError::BadConfig => String::from_str(alloc, "BadConfig\n"),
        PipeError::Stopped => String::from_str(alloc, "Stopped\n"),
        PipeError::Memory => Err(AllocError),
    }
}

/// The line of the names of some columns.
pub(crate) fn head_line(alloc: Global, fields: &[Field]) -> Result<String, AllocError> {
    let mut line = String::from_str(alloc, "[")?;
    for (place, field) in fields.iter().enumerate() {
        if place > 0 {
            line.push_str(",")?;
        }
        line.push_str(format!(in alloc; "\"{}\"", field.name.as_str())?.as_str())?;
    }
    line.push_str("]\n")?;
    Ok(line)
}
