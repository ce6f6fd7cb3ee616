//! The schemas of a plan's nodes, node by node upwards.

ghost use Rattle.std.specs.Prelude.{◌≡◌, [], length, map, IfOk};
ghost use Rattle.pipe_expr.specs.Formula.{formula_of};
ghost use Rattle.pipe_plan.specs.Node.{node_of};
ghost use Rattle.pipe_plan.specs.Plan.{plan_of};
ghost use Rattle.pipe_plan.specs.Schemas.{frame_at, scan_fields, union_fields, join_over, node_schema, schema_at, schema_of};
ghost use Rattle.pipe_pairs.specs.Sides.{join_of};
ghost use Rattle.pipe_plain.specs.Tables.{table, at_place};

use crate::projections::{fields_of_function, named_fields, selected_fields, stacked_fields};
use pipe_expr::Expr;
use pipe_frame::DataFrame;
use pipe_pairs::{Sides, copied_fields, joined_fields};
use pipe_plan::{Arena, IR, JoinOptions};
use pipe_schema::{Field, List, Text};
use std::alloc::{AllocError, Global};

/// The schema of a node, none of it where the node isn't there yet.
pub(crate) fn fields_at(schemas: &[List<Field>], n: u32) -> &[Field]
    ensures { result.now ≡ at_place [] schemas.now n }
{
    match schemas.get(n as usize) {
        Some(schema) => schema.as_slice(),
        None => &[],
    }
}

/// The schema of a frame, none of it where there is no such frame.
pub(crate) fn frame_fields(frames: &[DataFrame], frame: u32) -> &[Field]
    ensures { result.now ≡ (frame_at frames.now frame).schema }
{
    match frames.get(frame as usize) {
        Some(frame) => frame.schema().fields(),
        None => &[],
    }
}

/// The fields of a scan.
fn scanned_fields(
    alloc: Global,
    schema: &[Field],
    columns: &Option<List<Text>>,
) -> Result<List<Field>, AllocError>
    ensures { IfOk result (λ fields. fields ≡ scan_fields schema.now columns.now) }
{
    match columns {
        None => Ok(copied_fields(alloc, schema)?),
        Some(names) => Ok(named_fields(alloc, schema, names.as_slice())?),
    }
}

/// The fields of the first of some nodes.
fn first_fields(
    alloc: Global,
    schemas: &[List<Field>],
    inputs: &[u32],
) -> Result<List<Field>, AllocError>
    ensures { IfOk result (λ fields. fields ≡ union_fields (at_place [] schemas.now) inputs.now) }
{
    match inputs.first() {
        Some(input) => Ok(copied_fields(alloc, fields_at(schemas, *input))?),
        None => Ok(List::new(alloc)),
    }
}

/// How two nodes are joined.
pub(crate) fn sides_over<'a>(
    schemas: &'a [List<Field>],
    left: u32,
    right: u32,
    left_on: &'a List<Expr>,
    right_on: &'a List<Expr>,
    options: &'a JoinOptions,
) -> Sides<'a>
    ensures { let schema = at_place [] schemas.now in
        let left_keys = map formula_of left_on.now in
        let right_keys = map formula_of right_on.now in
        join_of result ≡ join_over (schema left) (schema right) left_keys right_keys options.now }
{
    Sides {
        left: fields_at(schemas, left),
        right: fields_at(schemas, right),
        left_on: left_on.as_slice(),
        right_on: right_on.as_slice(),
        options,
    }
}

/// The schema of a node over those of the nodes below it.
pub(crate) fn fields_of_node(
    alloc: Global,
    frames: &[DataFrame],
    schemas: &[List<Field>],
    node: &IR,
) -> Result<List<Field>, AllocError>
    ensures { let schema = at_place [] schemas.now in
        IfOk result (λ fields. fields ≡ node_schema frames.now schema (node_of node.now)) }
{
    match node {
        IR::DataFrameScan { frame, columns } => {
            scanned_fields(alloc, frame_fields(frames, *frame), columns)
        }
        IR::Filter { input, .. } => copied_fields(alloc, fields_at(schemas, *input)),
        IR::SimpleProjection { input, columns } => {
            named_fields(alloc, fields_at(schemas, *input), columns.as_slice())
        }
        IR::Select { input, exprs } => {
            selected_fields(alloc, fields_at(schemas, *input), exprs.as_slice())
        }
        IR::HStack { input, exprs } => {
            stacked_fields(alloc, fields_at(schemas, *input), exprs.as_slice())
        }
        IR::MapFunction { input, function } => {
            fields_of_function(alloc, function, fields_at(schemas, *input))
        }
        IR::Union { inputs } => first_fields(alloc, schemas, inputs.as_slice()),
        IR::Join {
            left,
            right,
            left_on,
            right_on,
            options,
        } => {
            joined_fields(
                alloc,
                &sides_over(schemas, *left, *right, left_on, right_on, options),
            )
        }
        IR::Sort { input, .. } => copied_fields(alloc, fields_at(schemas, *input)),
    }
}

/// The schema of each node of a plan.
pub fn plan_schemas(alloc: Global, arena: &Arena) -> Result<List<List<Field>>, AllocError>
    ensures { let fields_at = schema_at (plan_of arena.now) in
        IfOk result (λ schemas. schemas ≡ table [] fields_at (length arena.now.nodes)) }
{
    let mut schemas = List::new(alloc);
    let frames = arena.frames.as_slice();
    for node in arena.nodes.as_slice() {
        let made = fields_of_node(alloc, frames, schemas.as_slice(), node)?;
        schemas.push(made)?;
    }
    Ok(schemas)
}

/// The schema of a node of a plan.
pub fn schema(alloc: Global, arena: &Arena, root: u32) -> Result<List<Field>, AllocError>
    ensures { IfOk result (λ fields. fields ≡ schema_of (plan_of arena.now) root) }
{
    let schemas = plan_schemas(alloc, arena)?;
    Ok(copied_fields(alloc, fields_at(schemas.as_slice(), root))?)
}
