//! The cells of rows.

ghost use Rattle.std.specs.Prelude.{◌≡◌, IfOk};
ghost use Rattle.pipe_value.specs.View.{view};
ghost use Rattle.pipe_job.specs.Reads.{ReadWhere};
ghost use Rattle.pipe_job.specs.Shape.{is_cell};
ghost use Rattle.pipe_job.specs.Spelling.{FitsType, cell_spelling};
ghost use Rattle.pipe_view.specs.RawSpelling.{RawCellFits, raw_cell_spelling};

use crate::raw_cell::RawCell;
use pipe_job::{Misread, Spelled};
use pipe_schema::{AnyValue, Bytes, DataType, Text};
use pipe_value::Value;
use serde_json::Number;
use std::alloc::{AllocError, Global};

/// The value that a cell was read from.
#[tactic(auto, using(crate::proofs::Numbers::negative_is))]
fn value_of(alloc: Global, cell: &RawCell) -> Result<Value, AllocError>
    requires { RawCellFits cell.now }
    ensures { IfOk result (λ v. view v ≡ raw_cell_spelling cell.now) }
{
    match cell {
        RawCell::Null => Ok(Value::Null),
        RawCell::Boolean(truth) => Ok(Value::Bool(*truth)),
        RawCell::Unsigned(n) => Ok(Value::Number(Number::from(*n))),
        RawCell::Negative(z) => Ok(Value::Number(Number::from(*z))),
        RawCell::String(text) => Ok(Value::String(String::from_str(alloc, text.as_str())?)),
    }
}

/// The cell of a type that a value spells.
fn cell_in(alloc: Global, dtype: DataType, value: &Value) -> Result<AnyValue, Misread>
    ensures { ReadWhere (is_cell dtype (view value.now))
        (λ x. (view value.now ≡ cell_spelling x) × FitsType dtype x) result }
{
    if value.is_null() {
        return Ok(AnyValue::Null);
    }
    match dtype {
        DataType::Int32 => Ok(AnyValue::Int32(i32::read(alloc, value)?)),
        DataType::Int64 => Ok(AnyValue::Int64(i64::read(alloc, value)?)),
        DataType::UInt32 => Ok(AnyValue::UInt32(u32::read(alloc, value)?)),
        DataType::UInt64 => Ok(AnyValue::UInt64(u64::read(alloc, value)?)),
        DataType::Boolean => Ok(AnyValue::Boolean(bool::read(alloc, value)?)),
        DataType::String => Ok(AnyValue::String(Text::read(alloc, value)?)),
        DataType::Binary => Ok(AnyValue::Binary(Bytes::read(alloc, value)?)),
        DataType::Int128 => Ok(AnyValue::Int128(i128::read(alloc, value)?)),
    }
}

/// The cell of a type that stands there without one.
pub(crate) fn cell_of(alloc: Global, dtype: DataType, cell: &RawCell) -> Result<AnyValue, Misread>
    requires { RawCellFits cell.now }
    ensures { ReadWhere (is_cell dtype (raw_cell_spelling cell.now))
        (λ x. (raw_cell_spelling cell.now ≡ cell_spelling x) × FitsType dtype x) result }
{
    let value = value_of(alloc, cell)?;
    cell_in(alloc, dtype, &value)
}
