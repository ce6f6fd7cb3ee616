//! The first name that would stand twice in a node's output, or that a node names twice.

ghost use Rattle.std.specs.Prelude.{◌≡◌, false, None, map, IfOk, IfErr, OnOk};
ghost use Rattle.std.specs.Option.{option_copied};
ghost use Rattle.pipe_schema.specs.Schema.{names_of, first_repeated};
ghost use Rattle.pipe_plan.specs.Node.{node_of};
ghost use Rattle.pipe_plan.specs.Faults.{is_empty, once_named, once_names, duplicate_in, told_name};
ghost use Rattle.pipe_check.specs.Kept.{kept_schema};
ghost use Rattle.pipe_check.specs.Checked.{MemoryOr};
ghost use Rattle.pipe_check.specs.Checking.{made_schema};

use crate::handed::handed_on;
use crate::named::{NameIndex, Named};
use crate::outputs::node_fields;
use pipe_expr::FunctionIR;
use pipe_frame::DataFrame;
use pipe_plan::{IR, PipeError};
use pipe_schema::{Field, FrameError, List, Schema, Text, TryClone};
use std::alloc::{AllocError, Global};

/// The first name of some things that stands again further on.
fn repeated_among<'n, N: Named>(
    alloc: Global,
    items: &'n [N],
) -> Result<Option<&'n Text>, AllocError>
    ensures { IfOk result (λ name. option_copied name ≡ first_repeated (map N.name items.now)) }
{
    let index = NameIndex::of(alloc, items)?;
    Ok(index.repeated())
}

/// The first column that a function names twice where it may name it but once.
#[tactic(auto, using(crate::proofs::Unknown::repeated_rules))]
fn named_twice_in_function<'n>(
    alloc: Global,
    function: &'n FunctionIR,
) -> Result<Option<&'n Text>, AllocError>
    ensures { IfOk result (λ name. option_copied name ≡ first_repeated (once_named function.now)) }
{
    match function {
        FunctionIR::Unpivot { on, .. } => repeated_among(alloc, on.as_slice()),
        FunctionIR::Rename { pairs } => repeated_among(alloc, pairs.as_slice()),
    }
}

/// The first name that a node names twice where it may name it but once.
#[tactic(auto, using(crate::proofs::Unknown::repeated_rules))]
fn named_twice<'n>(alloc: Global, node: &'n IR) -> Result<Option<&'n Text>, AllocError>
    ensures { let names = once_names (node_of node.now) in
        IfOk result (λ name. option_copied name ≡ first_repeated names) }
{
    match node {
        IR::HStack { exprs, .. } => repeated_among(alloc, exprs.as_slice()),
        IR::MapFunction { function, .. } => named_twice_in_function(alloc, function),
        IR::DataFrameScan { .. }
        | IR::Filter { .. }
        | IR::SimpleProjection { .. }
        | IR::Select { .. }
        | IR::Union { .. }
        | IR::Join { .. }
        | IR::Sort { .. } => Ok(None),
    }
}

/// The schema of these fields, or the fault that a name stands twice.
fn schema_at(n: u32, fields: List<Field>) -> Result<Schema, PipeError>
    requires { is_empty fields ≡ false }
    ensures schema { IfOk result (λ schema. schema ≡ fields) }
    ensures ok { OnOk result (first_repeated (names_of fields) ≡ None) }
    ensures err { let name = first_repeated (names_of fields) in
        IfErr result (MemoryOr (told_name (PipeError.DuplicateName n) name)) }
{
    match Schema::new(fields) {
        Ok(schema) => Ok(schema),
        Err(FrameError::DuplicateName(name)) => Err(PipeError::DuplicateName(n, name)),
        Err(_) => Err(PipeError::Memory),
    }
}

/// A copy of a schema, in which no name stands twice.
#[tactic(auto, using(crate::proofs::Full::schema_rules))]
fn copy_of(schema: &Schema) -> Result<Schema, PipeError>
    ensures schema { IfOk result (λ copy. copy ≡ schema.now) }
    ensures once { first_repeated (names_of schema.now) ≡ None }
    ensures err { IfErr result (MemoryOr None) }
{
    let _fields = schema.fields();
    Ok(schema.try_clone()?)
}

/// The schema of a node's output, or the fault that it would hold a name twice.
fn schema_of_output(
    alloc: Global,
    frames: &[DataFrame],
    schemas: &[Option<Schema>],
    n: u32,
    node: &IR,
) -> Result<Schema, PipeError>
    requires { is_empty (made_schema frames.now schemas.now (node_of node.now)) ≡ false }
    ensures schema { let made = made_schema frames.now schemas.now (node_of node.now) in
        IfOk result (λ schema. schema ≡ made) }
    ensures ok { let made = made_schema frames.now schemas.now (node_of node.now) in
        OnOk result (first_repeated (names_of made) ≡ None) }
    ensures err { let made = made_schema frames.now schemas.now (node_of node.now) in
        let name = first_repeated (names_of made) in
        IfErr result (MemoryOr (told_name (PipeError.DuplicateName n) name)) }
{
    match handed_on(frames, schemas, node) {
        Some(schema) => copy_of(schema),
        None => {
            let fields = node_fields(alloc, frames, schemas, node)?;
            schema_at(n, fields)
        }
    }
}

/// The output schema of a node, or the fault that it would hold a name twice or that the node names one twice.
pub(crate) fn output_schema(
    alloc: Global,
    frames: &[DataFrame],
    schemas: &[Option<Schema>],
    n: u32,
    node: &IR,
) -> Result<Schema, PipeError>
    requires { is_empty (made_schema frames.now schemas.now (node_of node.now)) ≡ false }
    ensures full { IfOk result (λ schema. is_empty schema ≡ false) }
    ensures schema { let made = made_schema frames.now schemas.now (node_of node.now) in
        IfOk result (λ schema. schema ≡ made) }
    ensures ok { let name = duplicate_in frames.now (kept_schema schemas.now) (node_of node.now) in
        OnOk result (name ≡ None) }
    ensures err { let name = duplicate_in frames.now (kept_schema schemas.now) (node_of node.now) in
        IfErr result (MemoryOr (told_name (PipeError.DuplicateName n) name)) }
{
    let schema = schema_of_output(alloc, frames, schemas, n, node)?;
    match named_twice(alloc, node)? {
        Some(name) => Err(PipeError::DuplicateName(n, name.try_clone()?)),
        None => Ok(schema),
    }
}
