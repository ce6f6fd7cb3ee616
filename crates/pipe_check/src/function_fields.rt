//! The fields that a function gives.

ghost use Rattle.std.specs.Prelude.{◌≡◌, map, IfOk};
ghost use Rattle.pipe_expr.specs.Projections.{on_type, renamed_field, function_fields as fields_given};

use crate::columns::Columns;
use crate::named::NameIndex;
use crate::named_fields::{known, named_fields};
use crate::typing::column_type;
use pipe_expr::{FunctionIR, RenamePair};
use pipe_schema::{DataType, Field, List, Text, TryClone};
use std::alloc::{AllocError, Global};

/// The type of the first of some columns.
fn type_of_first(names: &[Text], columns: &Columns) -> DataType
    ensures { result ≡ on_type columns.now names.now }
{
    match names.first() {
        Some(name) => known(column_type(name, columns)),
        None => DataType::Boolean,
    }
}

/// A column under its new name.
#[tactic(auto, using(crate::proofs::Names::name_rules))]
fn field_renamed(field: &Field, pairs: &NameIndex<RenamePair>) -> Result<Field, AllocError>
    ensures { IfOk result (λ made. made ≡ renamed_field pairs.now field.now) }
{
    match pairs.first(&field.name) {
        Some(pair) => Ok(Field {
            name: pair.new_name.try_clone()?,
            dtype: field.dtype,
        }),
        None => Ok(field.try_clone()?),
    }
}

/// The columns under their new names.
fn renamed_fields(
    alloc: Global,
    pairs: &[RenamePair],
    fields: &[Field],
) -> Result<List<Field>, AllocError>
    ensures { IfOk result (λ made. made ≡ map (renamed_field pairs.now) fields.now) }
{
    let pairs = NameIndex::of(alloc, pairs)?;
    let mut made = List::new(alloc);
    for field in fields {
        made.push(field_renamed(field, &pairs)?)?;
    }
    Ok(made)
}

/// The fields that a function gives.
pub(crate) fn function_fields(
    alloc: Global,
    function: &FunctionIR,
    columns: &Columns,
) -> Result<List<Field>, AllocError>
    ensures { IfOk result (λ made. made ≡ fields_given function.now columns.now) }
{
    match function {
        FunctionIR::Unpivot {
            on,
            index,
            variable,
            value,
        } => {
            let mut made = named_fields(alloc, index.as_slice(), columns)?;
            made.push(Field {
                name: variable.try_clone()?,
                dtype: DataType::String,
            })?;
            made.push(Field {
                name: value.try_clone()?,
                dtype: type_of_first(on.as_slice(), columns),
            })?;
            Ok(made)
        }
        FunctionIR::Rename { pairs } => renamed_fields(alloc, pairs.as_slice(), columns.fields()),
    }
}
