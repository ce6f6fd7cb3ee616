//! The schema that a node hands on from its input, or from its frame, as it is.

ghost use Rattle.std.specs.Prelude.{◌≡◌, IfSome};
ghost use Rattle.pipe_plan.specs.Node.{node_of};
ghost use Rattle.pipe_plan.specs.Schemas.{frame_at, union_fields, node_schema};
ghost use Rattle.pipe_check.specs.Kept.{kept_schema};

use crate::below::schema_of;
use crate::joined::is_pairing;
use pipe_frame::DataFrame;
use pipe_plan::IR;
use pipe_schema::Schema;

/// The schema of a frame.
fn schema_of_frame(frames: &[DataFrame], frame: u32) -> Option<&Schema>
    ensures { IfSome result (λ schema. schema.now ≡ (frame_at frames.now frame).schema) }
{
    match frames.get(frame as usize) {
        Some(frame) => Some(frame.schema()),
        None => None,
    }
}

/// The schema of the first of some inputs.
fn first_schema<'s>(schemas: &'s [Option<Schema>], inputs: &[u32]) -> Option<&'s Schema>
    ensures { let kept = kept_schema schemas.now in
        IfSome result (λ schema. schema.now ≡ union_fields kept inputs.now) }
{
    match inputs.first() {
        Some(input) => schema_of(schemas, *input),
        None => None,
    }
}

/// The schema of a node's output, where that is the schema of its frame or of its first input and is kept: a scan that
/// names no columns, a filter, a sort, a union, a semi or an anti join.
pub fn handed_on<'s>(
    frames: &'s [DataFrame],
    schemas: &'s [Option<Schema>],
    node: &IR,
) -> Option<&'s Schema>
    ensures { let kept = kept_schema schemas.now in
        IfSome result (λ schema. schema.now ≡ node_schema frames.now kept (node_of node.now)) }
{
    match node {
        IR::DataFrameScan {
            frame,
            columns: None,
        } => schema_of_frame(frames, *frame),
        IR::DataFrameScan {
            columns: Some(_),
            ..
        } => None,
        IR::Filter { input, .. } | IR::Sort { input, .. } => schema_of(schemas, *input),
        IR::Union { inputs } => first_schema(schemas, inputs.as_slice()),
        IR::Join { left, options, .. } => {
            if is_pairing(options.how) {
                None
            } else {
                schema_of(schemas, *left)
            }
        }
        IR::SimpleProjection { .. }
        | IR::Select { .. }
        | IR::HStack { .. }
        | IR::MapFunction { .. } => None,
    }
}
