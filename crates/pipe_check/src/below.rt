//! What stands below a node: the columns of its inputs, or of its frame.

ghost use Rattle.std.specs.Prelude.{◌≡◌, [], unwrap_or};
ghost use Rattle.std.specs.Option.{option_copied};
ghost use Rattle.pipe_plan.specs.Schemas.{frame_at};
ghost use Rattle.pipe_check.specs.Kept.{kept_schema};

use crate::columns::Columns;
use pipe_frame::DataFrame;
use pipe_schema::Schema;

/// The schema that is kept for a node.
pub(crate) fn schema_of(schemas: &[Option<Schema>], n: u32) -> Option<&Schema>
    ensures { unwrap_or (option_copied result) [] ≡ kept_schema schemas.now n }
{
    match schemas.get(n as usize) {
        Some(Some(schema)) => Some(schema),
        _ => None,
    }
}

/// The columns of the schema that is kept for a node.
pub fn columns_of(schemas: &[Option<Schema>], n: u32) -> Columns
    ensures { result ≡ kept_schema schemas.now n }
{
    match schema_of(schemas, n) {
        Some(schema) => Columns::of(schema),
        None => Columns::none(),
    }
}

/// The columns of a frame, none where there is no such frame.
pub fn columns_of_frame(frames: &[DataFrame], frame: u32) -> Columns
    ensures { result ≡ (frame_at frames.now frame).schema }
{
    match frames.get(frame as usize) {
        Some(frame) => Columns::of(frame.schema()),
        None => Columns::none(),
    }
}
