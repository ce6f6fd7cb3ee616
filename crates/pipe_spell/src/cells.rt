//! Cells and their types as values.

ghost use Rattle.std.specs.Prelude.{◌≡◌, IfOk, OnOk, string_bytes};
ghost use Rattle.hex.specs.Hex.{IsBytes, encode_lower};
ghost use Rattle.pipe_value.specs.View.{view};
ghost use Rattle.pipe_job.specs.Spelling.{cell_spelling, type_name};
ghost use Rattle.pipe_spell.specs.Ranges.{CellInRange};

use itoa::Buffer;
use pipe_schema::{AnyValue, DataType};
use pipe_value::Value;
use serde_json::Number;
use std::alloc::{AllocError, Global};

/// The name of a type.
pub(crate) fn type_name(dtype: DataType) -> &'static str
    ensures { result.now ≡ type_name dtype }
{
    match dtype {
        DataType::Int32 => "Int32",
        DataType::Int64 => "Int64",
        DataType::UInt32 => "UInt32",
        DataType::UInt64 => "UInt64",
        DataType::Boolean => "Boolean",
        DataType::String => "String",
        DataType::Binary => "Binary",
        DataType::Int128 => "Int128",
    }
}

/// The text that spells bytes, each of which is below 256.
fn hex_text(alloc: Global, bytes: &[u8]) -> Result<String, AllocError>
    ensures text { IfOk result (λ text. string_bytes text ≡ encode_lower bytes.now) }
    ensures each { IsBytes bytes.now }
{
    Ok(hex::encode(alloc, bytes)?)
}

/// The value that spells a cell.
pub(crate) fn cell_value(alloc: Global, cell: &AnyValue) -> Result<Value, AllocError>
    ensures spelled { IfOk result (λ value. view value ≡ cell_spelling cell.now) }
    ensures fits { OnOk result (CellInRange cell.now) }
{
    match cell {
        AnyValue::Null => Ok(Value::Null),
        AnyValue::Int32(x) => Ok(Value::Number(Number::from(*x))),
        AnyValue::Int64(x) => Ok(Value::Number(Number::from(*x))),
        AnyValue::UInt32(x) => Ok(Value::Number(Number::from(*x))),
        AnyValue::UInt64(x) => Ok(Value::Number(Number::from(*x))),
        AnyValue::Boolean(truth) => Ok(Value::Bool(*truth)),
        AnyValue::String(text) => Ok(Value::String(String::from_str(alloc, text.as_str())?)),
        AnyValue::Binary(bytes) => Ok(Value::String(hex_text(alloc, bytes.as_slice())?)),
        AnyValue::Int128(x) => {
            let mut buffer = Buffer::new();
            Ok(Value::String(String::from_str(alloc, buffer.format(*x))?))
        }
    }
}
