//! Why two tables can't be reconciled.

ghost use Rattle.std.specs.Prelude.{◌≡◌, IfErr, IfOk, None, OnOk};
ghost use Rattle.pipe_plan.specs.Faults.{eq_types};
ghost use Rattle.pipe_recon.specs.Refusals.{IsTold, has_no_key, is_bad_key, lacks_name, recon_fault, types_differ, types_fault};

use crate::recon_spec::ReconSpec;
use pipe_expr::column_type;
use pipe_frame::DataFrame;
use pipe_plan::PipeError;
use pipe_schema::{DataType, Field, Schema, Text, TryClone, first_repeated};
use std::alloc::{AllocError, Global};

/// The number of the left table.
const LEFT: u32 = 0;

/// The number of the right table.
const RIGHT: u32 = 1;

/// The number of their join.
const JOIN: u32 = 2;

/// `UnknownColumn` with the first of some names that a table lacks.
fn check_names(table: u32, schema: &Schema, on: &[Text]) -> Result<(), PipeError>
    ensures ok { OnOk result (lacks_name table schema.now on.now ≡ None) }
    ensures err { IfErr result (IsTold (lacks_name table schema.now on.now)) }
{
    match schema.first_unknown(on) {
        Some(name) => Err(PipeError::UnknownColumn(table, name.try_clone()?)),
        None => Ok(()),
    }
}

/// Whether two types are there and the same.
fn are_same(a: Option<DataType>, b: Option<DataType>) -> bool
    ensures { result ≡ eq_types a b }
{
    match (a, b) {
        (Some(a), Some(b)) => a.is_same(b),
        _ => false,
    }
}

/// Whether a column of one of some names has different types.
fn do_types_differ(left: &[Field], right: &[Field], on: &[Text]) -> bool
    ensures { result ≡ types_differ left.now right.now on.now }
{
    for name in on {
        if !are_same(column_type(name, left), column_type(name, right)) {
            return true;
        }
    }
    false
}

/// `TypeMismatch` where a column of one of some names has different types.
fn check_types(left: &Schema, right: &Schema, on: &[Text]) -> Result<(), PipeError>
    ensures ok { OnOk result (types_fault left.now right.now on.now ≡ None) }
    ensures err { IfErr result (IsTold (types_fault left.now right.now on.now)) }
{
    if do_types_differ(left.fields(), right.fields(), on) {
        return Err(PipeError::TypeMismatch(JOIN));
    }
    Ok(())
}

/// Whether some names are no key: there is none, or one stands twice.
fn is_bad_key(alloc: Global, on: &[Text]) -> Result<bool, AllocError>
    ensures { IfOk result (λ bad. bad ≡ is_bad_key on.now) }
{
    if on.is_empty() {
        return Ok(true);
    }
    Ok(first_repeated(alloc, on)?.is_some())
}

/// `BadJoin` where some names are no key.
fn check_key(alloc: Global, on: &[Text]) -> Result<(), PipeError>
    ensures ok { OnOk result (has_no_key on.now ≡ None) }
    ensures err { IfErr result (IsTold (has_no_key on.now)) }
{
    if is_bad_key(alloc, on)? {
        return Err(PipeError::BadJoin(JOIN));
    }
    Ok(())
}

/// Nothing where two tables can be reconciled by a key. Else the first that holds of these: `UnknownColumn(0, name)`
/// with the first name that the left table lacks, `UnknownColumn(1, name)` with the first that the right table lacks,
/// `TypeMismatch(2)` where a column of the key has different types in the two tables, `BadJoin(2)` where the key has no
/// column or names one twice. `Memory`.
pub fn check_spec(
    alloc: Global,
    left: &DataFrame,
    right: &DataFrame,
    spec: &ReconSpec,
) -> Result<(), PipeError>
    ensures ok { OnOk result (recon_fault left.now right.now spec.now.on ≡ None) }
    ensures err { IfErr result (IsTold (recon_fault left.now right.now spec.now.on)) }
{
    let on = spec.on.as_slice();
    check_names(LEFT, left.schema(), on)?;
    check_names(RIGHT, right.schema(), on)?;
    check_types(left.schema(), right.schema(), on)?;
    check_key(alloc, on)
}
