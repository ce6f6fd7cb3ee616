//! The two loops that write columns.

ghost use Rattle.std.specs.Prelude.{◌≡◌, length, IfOk};
ghost use Rattle.pipe_expr.specs.Nullables.{zip_with, IsZip};

use crate::kernel::Kernel;
use crate::nullable_values::NullableValues;
use pipe_column::Column;
use std::alloc::{AllocError, Global};

/// A column of these values.
#[tactic(auto, using(crate::proofs::NullableRows::nullable_rules))]
pub(crate) fn collect<S: NullableValues>(
    alloc: Global,
    rows: usize,
    source: &S,
) -> Result<Column<S::Value>, AllocError>
where
    S::Value: Drop,
    requires { rows ≡ length (S.nullables source.now) }
    ensures { IfOk result (λ column. column ≡ S.nullables source.now) }
{
    let mut validity = Vec::with_capacity(alloc, rows)?;
    let mut values = Vec::with_capacity(alloc, rows)?;
    for i in 0..rows {
        let (valid, value) = source.nullable(i);
        validity.push_reserved(valid);
        values.push_reserved(value);
    }
    Ok(Column::from_parts(validity, values))
}

/// Puts what a kernel gives of a column and of other values, row by row, in the column's place.
#[tactic(auto, using(crate::proofs::Replaced::replaced_rules))]
fn replace<S: NullableValues, K: Kernel<S::Value, Output = S::Value>>(
    valid: &mut [bool],
    values: &mut [S::Value],
    right: &S,
    kernel: K,
)
where
    S::Value: Copy,
    requires even { length valid.old ≡ length values.old }
    requires rows { length (S.nullables right.now) ≡ length valid.old }
    ensures even { length valid.new ≡ length values.new }
    ensures all { IsZip K.gives (S.nullables right.now) valid.old values.old valid.new values.new }
{
    for i in 0..valid.len() {
        let (is_valid, value) = kernel.apply((valid[i], values[i]), right.nullable(i));
        valid[i] = is_valid;
        values[i] = value;
    }
}

/// What a kernel gives of a column and of other values, row by row, in the column's memory.
#[tactic(auto, using(crate::proofs::Replaced::replaced_rules))]
pub(crate) fn collect_into<S: NullableValues, K: Kernel<S::Value, Output = S::Value>>(
    left: Column<S::Value>,
    right: &S,
    kernel: K,
) -> Result<Column<S::Value>, AllocError>
where
    S::Value: Copy + Drop,
    requires { length (S.nullables right.now) ≡ length left }
    ensures { IfOk result (λ made. made ≡ zip_with K.gives left (S.nullables right.now)) }
{
    let (mut validity, mut values) = left.into_parts()?;
    replace(&mut validity, &mut values, right, kernel);
    Ok(Column::from_parts(validity, values))
}
