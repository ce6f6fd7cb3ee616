//! The columns that a node of a plan has, where the nodes under it have no fault.

use crate::node_words::under;
use pipe_check::{CheckedPlan, Columns, check_plan, node_fields};
use pipe_plan::{Arena, IR, PipeError};
use pipe_schema::{FrameError, Schema, TryClone};
use std::alloc::{AllocError, Global};

/// The schema of a plan's root.
fn root_schema(plan: &CheckedPlan) -> Result<Schema, AllocError> {
    let root = plan.root();
    plan.schema(root).try_clone()
}

/// The schema of a node, none where there is no such node or one under it has a fault.
pub(crate) fn schema_of(
    alloc: Global,
    arena: &Arena,
    n: u32,
) -> Result<Option<Schema>, AllocError> {
    match check_plan(alloc, arena, n) {
        Ok(plan) => Ok(Some(root_schema(&plan)?)),
        Err(PipeError::Memory) => Err(AllocError),
        Err(_) => Ok(None),
    }
}

/// The schema of a node over those of the nodes below it, none where it would name a column twice.
fn schema_over(
    alloc: Global,
    arena: &Arena,
    schemas: &[Option<Schema>],
    node: &IR,
) -> Result<Option<Schema>, AllocError> {
    let fields = node_fields(alloc, arena.frames.as_slice(), schemas, node)?;
    match Schema::new(fields) {
        Ok(schema) => Ok(Some(schema)),
        Err(FrameError::Memory) => Err(AllocError),
        Err(_) => Ok(None),
    }
}

/// The schemas of the nodes below a node that it reads, and that those read; none of the others.
pub(crate) fn schemas_below(
    alloc: Global,
    arena: &Arena,
    n: u32,
) -> Result<Vec<Option<Schema>>, AllocError> {
    let marks = under(alloc, arena.nodes.as_slice(), n)?;
    let mut schemas = Vec::new(alloc);
    for (m, node) in (0..n).zip(arena.nodes.as_slice()) {
        let schema = if marks.as_slice().get(m as usize) == Some(&true) {
            schema_over(alloc, arena, schemas.as_slice(), node)?
        } else {
            None
        };
        schemas.push(schema)?;
    }
    Ok(schemas)
}

/// The columns of a schema, none where there is none.
pub(crate) fn columns_of(schema: &Option<Schema>) -> Columns<'_> {
    match schema {
        Some(schema) => Columns::of(schema),
        None => Columns::none(),
    }
}
