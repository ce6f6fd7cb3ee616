//! What is told of two tables and a key.

ghost use Rattle.pipe_value.specs.View.{view};
ghost use Rattle.pipe_job.specs.Reading.{Reading};

use pipe_expr::JoinType;
use pipe_frame::DataFrame;
use pipe_plan::PipeError;
use pipe_recon::{ReconJob, check_spec, recon_job_of};
use pipe_schema::{Field, Schema, Text, first_repeated};
use pipe_value::Value;
use pipe_why::{matches_of, push_columns, push_config};
use pipe_why_text::{push_count, push_field, push_name, type_word};
use pipe_why_value::{InputKind, push_misfit};
use std::alloc::{AllocError, Global};
use std::fmt::Write;

/// Which name of a key a column is.
fn place_of(on: &[Text], name: &Text) -> usize {
    for (i, other) in on.iter().enumerate() {
        if other.is_same(name) {
            return i;
        }
    }
    on.len()
}

/// Appends that a table lacks a column of the key, and which it has.
fn push_unknown(
    alloc: Global,
    out: &mut String,
    job: &ReconJob,
    table: u32,
    name: &Text,
) -> Result<(), AllocError> {
    let i = place_of(job.spec.on.as_slice(), name);
    write!(out, "UnknownColumn: on[{i}]: ")?;
    out.push_str(if table == 0 {
        "the left table, frames[0]"
    } else {
        "the right table, frames[1]"
    })?;
    out.push_str(", has no column ")?;
    push_name(out, name)?;
    out.push_str("\nexpected: one of ")?;
    let frame = if table == 0 { &job.left } else { &job.right };
    push_columns(alloc, out, frame.schema(), name)
}

/// The field of a name.
fn field_of<'s>(schema: &'s Schema, name: &Text) -> Option<&'s Field> {
    let i = schema.index_of(name.as_bytes())?;
    schema.fields().get(i)
}

/// The word of the type of a column.
fn type_of(schema: &Schema, name: &Text) -> &'static str {
    match field_of(schema, name) {
        Some(field) => type_word(field.dtype),
        None => "none",
    }
}

/// Appends the first column of the key that has two types.
fn push_mistyped(out: &mut String, job: &ReconJob) -> Result<(), AllocError> {
    for (i, name) in job.spec.on.as_slice().iter().enumerate() {
        let left = type_of(job.left.schema(), name);
        let right = type_of(job.right.schema(), name);
        if left != right {
            write!(out, "TypeMismatch: on[{i}]: the column ")?;
            push_name(out, name)?;
            return write!(
                out,
                " has two types\nexpected: one type in both tables\nfound: {left} in the left table, {right} in the right one\n"
            );
        }
    }
    out.push_str("TypeMismatch\n")
}

/// Appends what is wrong with the names of the key.
fn push_bad_key(alloc: Global, out: &mut String, on: &[Text]) -> Result<(), AllocError> {
    match first_repeated(alloc, on)? {
        Some(name) => {
            out.push_str("BadJoin: on has the column ")?;
            push_name(out, name)?;
            out.push_str(" twice\nexpected: on: each column once\n")
        }
        None => out.push_str(
            "BadJoin: on names no column\nexpected: on: one column or more\nfound: []\n",
        ),
    }
}

/// Appends what is told of an error of two tables and a key.
fn push_error(
    alloc: Global,
    out: &mut String,
    job: &ReconJob,
    error: &PipeError,
) -> Result<(), AllocError> {
    match error {
        PipeError::Memory => Err(AllocError),
        PipeError::UnknownColumn(table, name) => push_unknown(alloc, out, job, *table, name),
        PipeError::TypeMismatch(_) => push_mistyped(out, job),
        _ => push_bad_key(alloc, out, job.spec.on.as_slice()),
    }
}

/// The fault of two tables and a key, none where there is none.
fn fault_of(alloc: Global, job: &ReconJob) -> Result<Option<String>, AllocError> {
    let mut told = String::new(alloc);
    if push_config(&mut told, &job.config)? {
        return Ok(Some(told));
    }
    match check_spec(alloc, &job.left, &job.right, &job.spec) {
        Ok(()) => Ok(None),
        Err(error) => {
            push_error(alloc, &mut told, job, &error)?;
            Ok(Some(told))
        }
    }
}

/// Appends the columns of the key with their types.
fn push_key(out: &mut String, schema: &Schema, on: &[Text]) -> Result<(), AllocError> {
    for (i, name) in on.iter().enumerate() {
        if i != 0 {
            out.push_str(", ")?;
        }
        match field_of(schema, name) {
            Some(field) => push_field(out, field)?,
            None => push_name(out, name)?,
        }
    }
    out.push_str("\n")
}

/// Appends how many rows a table or the join of both has.
fn push_height(out: &mut String, which: &str, rows: u64, row_limit: u32) -> Result<(), AllocError> {
    out.push_str(which)?;
    if rows == 1 {
        out.push_str(" has 1 row")?;
    } else {
        write!(out, " has {rows} rows")?;
    }
    if (row_limit as u64) < rows {
        write!(
            out,
            ", more than row_limit {row_limit}: reconcile ends with status 7"
        )?;
    }
    out.push_str("\n")
}

/// How many rows a frame has.
fn height_of(frame: &DataFrame) -> u64 {
    frame.height() as u64
}

/// Appends what the reconciliation of two tables by a key without a fault will do.
fn push_outcome(alloc: Global, out: &mut String, job: &ReconJob) -> Result<(), AllocError> {
    let on = job.spec.on.as_slice();
    let row_limit = job.config.row_limit;
    out.push_str(
        "a reconciliation without a fault: which rows have a partner in the other table, by the key ",
    )?;
    push_key(out, job.left.schema(), on)?;
    push_height(
        out,
        "the left table, frames[0],",
        height_of(&job.left),
        row_limit,
    )?;
    push_height(
        out,
        "the right table, frames[1],",
        height_of(&job.right),
        row_limit,
    )?;
    let matches = matches_of(alloc, &job.left, on, &job.right, on, job.spec.join_nulls)?;
    let Some(matches) = matches else {
        return Ok(());
    };
    match matches.rows(JoinType::Full) {
        Some(rows) => push_height(out, "their full join", rows, row_limit),
        None => Ok(()),
    }
}

/// Appends what is told of two tables, a key and numbers.
fn push_recon_job(alloc: Global, out: &mut String, job: &ReconJob) -> Result<(), AllocError> {
    match fault_of(alloc, job)? {
        Some(fault) => {
            out.push_str("a reconciliation with a fault, by which reconcile ends with status 6\n")?;
            out.push_str(fault.as_str())
        }
        None => push_outcome(alloc, out, job),
    }
}

/// Appends what is told of a value that should spell two tables and a key.
pub(crate) fn push_reconciliation(
    alloc: Global,
    out: &mut String,
    bytes: &[u8],
    value: &Value,
) -> Result<(), AllocError>
    requires { Reading bytes.now (view value.now) }
{
    match recon_job_of(alloc, value)? {
        Some(job) => push_recon_job(alloc, out, &job),
        None => {
            out.push_str("not a reconciliation: ")?;
            push_misfit(alloc, out, bytes, value, InputKind::Reconciliation)
        }
    }
}
