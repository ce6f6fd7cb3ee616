//! The columns of a chunk, with those of expressions.

ghost use Rattle.std.specs.Prelude.{◌≡◌, ◌++◌, not, IfOk, OnOk};
ghost use Rattle.std.specs.List.{AllByRecursion};
ghost use Rattle.pipe_schema.specs.Schema.{has_name, names_of};
ghost use Rattle.pipe_ops.specs.Exprs.{exprs_in, IsMadeFor, made_named, replaced, new_columns};

use crate::gives_column::GivesColumn;
use pipe_column::Series;
use pipe_frame::DataChunk;
use pipe_schema::{Schema, Text, TryClone};
use std::alloc::{AllocError, Global};
use std::sync::Arc;

/// The column of the expression of a name, none where no expression has it.
fn column_named<E: GivesColumn>(
    alloc: Global,
    exprs: &[Arc<E>],
    chunk: &DataChunk,
    name: &Text,
) -> Result<Option<Series>, AllocError>
    requires { AllByRecursion (IsMadeFor E.made_for chunk.now.frame.schema) exprs.now }
    ensures { IfOk result
        (λ c. c ≡ made_named chunk.now.frame (exprs_in E.named exprs.now) name.now) }
{
    for expr in exprs {
        if expr.name().is_same(name) {
            return Ok(Some(expr.column(alloc, chunk)?));
        }
    }
    Ok(None)
}

/// The columns of a chunk, each replaced where an expression has its name.
pub(crate) fn replaced_columns<E: GivesColumn>(
    alloc: Global,
    exprs: &[Arc<E>],
    chunk: &DataChunk,
) -> Result<Vec<Series>, AllocError>
    requires { AllByRecursion (IsMadeFor E.made_for chunk.now.frame.schema) exprs.now }
    ensures { IfOk result (λ v. v.items ≡ replaced (exprs_in E.named exprs.now) chunk.now.frame) }
{
    let mut columns = Vec::with_capacity(alloc, chunk.frame.width())?;
    for column in chunk.frame.get_columns() {
        match column_named(alloc, exprs, chunk, column.name())? {
            Some(made) => columns.push(made)?,
            None => columns.push(column.try_clone()?)?,
        }
    }
    Ok(columns)
}

/// Whether no field of a schema has a name.
#[tactic(auto, using(crate::proofs::StackedNames::new_name))]
fn is_new_name(schema: &Schema, name: &Text) -> bool
    ensures { result ≡ not (has_name (names_of schema.now) name.now) }
{
    match schema.index_of(name.as_bytes()) {
        Some(_) => false,
        None => true,
    }
}

/// Adds the columns of those expressions whose names a schema lacks.
pub(crate) fn add_new_columns<E: GivesColumn>(
    alloc: Global,
    exprs: &[Arc<E>],
    chunk: &DataChunk,
    schema: &Schema,
    columns: &mut Vec<Series>,
) -> Result<(), AllocError>
    requires { AllByRecursion (IsMadeFor E.made_for chunk.now.frame.schema) exprs.now }
    ensures { let added = new_columns schema.now (exprs_in E.named exprs.now) chunk.now.frame in
        OnOk result (columns.new.items ≡ columns.old.items ++ added) }
{
    for expr in exprs {
        if is_new_name(schema, expr.name()) {
            columns.push(expr.column(alloc, chunk)?)?;
        }
    }
    Ok(())
}
