//! Chunks in the order of a schema.

ghost use Rattle.std.specs.Prelude.{◌≡◌, true, IfOk, OnOk, OnErr};
ghost use Rattle.std.specs.List.{list_all};
ghost use Rattle.pipe_schema.specs.Schema.{names_of};
ghost use Rattle.pipe_ops.specs.Each.{HasFields, has_field, reprojected};

use pipe_expr::column_type;
use pipe_frame::DataChunk;
use pipe_schema::{Field, FrameError, List, Schema, Text, TryClone};
use std::alloc::{AllocError, Global};

/// The names of some fields.
fn copied_names(alloc: Global, fields: &[Field]) -> Result<List<Text>, AllocError>
    ensures { IfOk result (λ names. names ≡ names_of fields.now) }
{
    let mut names = List::new(alloc);
    for field in fields {
        names.push(field.name.try_clone()?)?;
    }
    Ok(names)
}

/// Whether a schema has a field, by its name and type.
fn has_this_field(schema: &[Field], field: &Field) -> bool
    ensures { result ≡ has_field schema.now field.now }
{
    match column_type(&field.name, schema) {
        Some(dtype) => dtype == field.dtype,
        None => false,
    }
}

/// Whether a schema has each of some fields.
fn has_each(schema: &[Field], fields: &[Field]) -> bool
    ensures { result ≡ list_all (has_field schema.now) fields.now }
{
    for field in fields {
        if !has_this_field(schema, field) {
            return false;
        }
    }
    true
}

/// Whether a schema has each field of another, as `reproject_chunk` wants of a chunk.
#[tactic(auto, using(crate::proofs::FieldTests::has_each, crate::proofs::FieldTests::each_has))]
pub fn has_fields(schema: &Schema, fields: &Schema) -> bool
    ensures yes { result ≡ true → HasFields schema.now fields.now }
    ensures no { HasFields schema.now fields.now → result ≡ true }
{
    has_each(schema.fields(), fields.fields())
}

/// Brings the columns of a chunk into the order of a schema, each of whose fields the chunk has, and drops those
/// that the schema lacks (polars-pipe's `reproject_chunk`, which also keeps the positions).
pub fn reproject_chunk(
    alloc: Global,
    chunk: &mut DataChunk,
    schema: &Schema,
) -> Result<(), AllocError>
    requires { HasFields chunk.old.frame.schema schema.now }
    ensures ok { OnOk result
        (chunk.new ≡ record chunk.old { frame = reprojected schema.now chunk.old.frame }) }
    ensures err { OnErr result (chunk.new ≡ chunk.old) }
{
    let names = copied_names(alloc, schema.fields())?;
    let _ = chunk.frame.get_columns();
    match chunk.frame.select(names.as_slice()) {
        Ok(frame) => {
            chunk.frame = frame;
            Ok(())
        }
        Err(FrameError::Memory) => Err(AllocError),
        Err(_) => unreachable!(),
    }
}
