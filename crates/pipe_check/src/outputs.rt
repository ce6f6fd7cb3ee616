//! The fields of a node's output, over those of its inputs.

ghost use Rattle.std.specs.Prelude.{◌≡◌, IfOk};
ghost use Rattle.pipe_plan.specs.Node.{node_of};
ghost use Rattle.pipe_plan.specs.Schemas.{scan_fields, union_fields, node_schema};
ghost use Rattle.pipe_check.specs.Kept.{kept_schema};

use crate::below::{columns_of, columns_of_frame};
use crate::columns::Columns;
use crate::function_fields::function_fields;
use crate::joined::joined_fields;
use crate::named_fields::{copied_fields, named_fields, selected_fields};
use crate::stacked::stacked_fields;
use pipe_frame::DataFrame;
use pipe_plan::IR;
use pipe_schema::{Field, List, Schema, Text};
use std::alloc::{AllocError, Global};

/// The fields of a scan.
fn scanned_fields(
    alloc: Global,
    frame: &Columns,
    columns: &Option<List<Text>>,
) -> Result<List<Field>, AllocError>
    ensures { IfOk result (λ scanned. scanned ≡ scan_fields frame.now columns.now) }
{
    match columns {
        None => copied_fields(alloc, frame.fields()),
        Some(names) => named_fields(alloc, names.as_slice(), frame),
    }
}

/// The fields of the first of some inputs.
fn first_fields(
    alloc: Global,
    schemas: &[Option<Schema>],
    inputs: &[u32],
) -> Result<List<Field>, AllocError>
    ensures { let kept = kept_schema schemas.now in
        IfOk result (λ fields. fields ≡ union_fields kept inputs.now) }
{
    match inputs.first() {
        Some(input) => copied_fields(alloc, columns_of(schemas, *input).fields()),
        None => Ok(List::new(alloc)),
    }
}

/// The fields of a node's output schema, over the schemas that are kept for its inputs. Only want of memory is told.
pub fn node_fields(
    alloc: Global,
    frames: &[DataFrame],
    schemas: &[Option<Schema>],
    node: &IR,
) -> Result<List<Field>, AllocError>
    ensures { let kept = kept_schema schemas.now in
        IfOk result (λ fields. fields ≡ node_schema frames.now kept (node_of node.now)) }
{
    match node {
        IR::DataFrameScan { frame, columns } => {
            scanned_fields(alloc, &columns_of_frame(frames, *frame), columns)
        }
        IR::Filter { input, .. } | IR::Sort { input, .. } => copied_fields(
            alloc,
            columns_of(schemas, *input).fields(),
        ),
        IR::SimpleProjection { input, columns } => {
            named_fields(alloc, columns.as_slice(), &columns_of(schemas, *input))
        }
        IR::Select { input, exprs } => {
            selected_fields(alloc, exprs.as_slice(), &columns_of(schemas, *input))
        }
        IR::HStack { input, exprs } => {
            stacked_fields(alloc, &columns_of(schemas, *input), exprs.as_slice())
        }
        IR::MapFunction { input, function } => {
            function_fields(alloc, function, &columns_of(schemas, *input))
        }
        IR::Union { inputs } => first_fields(alloc, schemas, inputs.as_slice()),
        IR::Join {
            left,
            right,
            right_on,
            options,
            ..
        } => joined_fields(
            alloc,
            &columns_of(schemas, *left),
            &columns_of(schemas, *right),
            right_on.as_slice(),
            options,
        ),
    }
}
