//! Cells and their types in JSON.

ghost use Rattle.std.specs.Prelude.{◌≡◌, ⊤};
ghost use Rattle.serde_json.specs.Data.{string};
ghost use Rattle.pipe_value.specs.View.{view};
ghost use Rattle.hex.specs.Hex.{IsBytes};
ghost use Rattle.pipe_job.specs.Reads.{ReadWhere};
ghost use Rattle.pipe_job.specs.Shape.{is_lower_digit, are_lower_digits, is_hex, is_type, is_cell};
ghost use Rattle.pipe_job.specs.Spelling.{hex_spelling, type_spelling, cell_spelling, FitsType, IsHexOf};

use crate::misread::Misread;
use crate::spelled::Spelled;
use pipe_schema::{AnyValue, Bytes, DataType, Text};
use pipe_value::Value;
use std::alloc::Global;

impl Spelled for Bytes {
    ghost spelling = { hex_spelling };

    ghost fits = { IsBytes };

    ghost shape = { is_hex };

    fn read(alloc: Global, value: &Value) -> Result<Bytes, Misread> {
        match value.as_str() {
            Some(text) => bytes_of(alloc, text),
            None => Err(Misread::Other),
        }
    }
}

/// Bytes, each of which is below 256.
fn bytes_from(bytes: Vec<u8>) -> Bytes
    ensures bytes { result ≡ bytes.items }
    ensures each { IsBytes result }
{
    Bytes::from_vec(bytes)
}

/// Whether a byte is a lower-case hexadecimal digit.
fn is_lower_digit(byte: u8) -> bool
    ensures { result ≡ is_lower_digit byte }
{
    (b'0' <= byte && byte <= b'9') || (b'a' <= byte && byte <= b'f')
}

/// Whether a text has lower-case hexadecimal digits alone.
fn are_lower_digits(text: &[u8]) -> bool
    ensures { result ≡ are_lower_digits text.now }
{
    for byte in text {
        if !is_lower_digit(*byte) {
            return false;
        }
    }
    true
}

/// The bytes of a text in lower-case hexadecimal digits.
#[tactic(auto, using(crate::proofs::Hexes::hex_rules))]
fn bytes_of(alloc: Global, text: &str) -> Result<Bytes, Misread>
    ensures { ReadWhere (is_hex (string text.now)) (IsHexOf text.now) result }
{
    if !are_lower_digits(text.as_bytes()) {
        return Err(Misread::Other);
    }
    let bytes = match hex::decode(alloc, text) {
        Ok(bytes) => bytes,
        Err(hex::FromHexError::OutOfMemory) => return Err(Misread::Memory),
        Err(_) => return Err(Misread::Other),
    };
    Ok(bytes_from(bytes))
}

impl Spelled for DataType {
    ghost spelling = { type_spelling };

    ghost fits = { λ _. ⊤ };

    ghost shape = { is_type };

    fn read(_alloc: Global, value: &Value) -> Result<DataType, Misread> {
        match value.as_str() {
            Some("Int32") => Ok(DataType::Int32),
            Some("Int64") => Ok(DataType::Int64),
            Some("UInt32") => Ok(DataType::UInt32),
            Some("UInt64") => Ok(DataType::UInt64),
            Some("Boolean") => Ok(DataType::Boolean),
            Some("String") => Ok(DataType::String),
            Some("Binary") => Ok(DataType::Binary),
            Some("Int128") => Ok(DataType::Int128),
            _ => Err(Misread::Other),
        }
    }
}

/// The cell of a type that a value spells.
pub(crate) fn cell_of(alloc: Global, dtype: DataType, value: &Value) -> Result<AnyValue, Misread>
    ensures { ReadWhere (is_cell dtype (view value.now))
        (λ x. (view value.now ≡ cell_spelling x) × FitsType dtype x) result }
{
    if value.is_null() {
        return Ok(AnyValue::Null);
    }
    match dtype {
        DataType::Int32 => Ok(AnyValue::Int32(i32::read(alloc, value)?)),
        DataType::Int64 => Ok(AnyValue::Int64(i64::read(alloc, value)?)),
        DataType::UInt32 => Ok(AnyValue::UInt32(u32::read(alloc, value)?)),
        DataType::UInt64 => Ok(AnyValue::UInt64(u64::read(alloc, value)?)),
        DataType::Boolean => Ok(AnyValue::Boolean(bool::read(alloc, value)?)),
        DataType::String => Ok(AnyValue::String(Text::read(alloc, value)?)),
        DataType::Binary => Ok(AnyValue::Binary(Bytes::read(alloc, value)?)),
        DataType::Int128 => Ok(AnyValue::Int128(i128::read(alloc, value)?)),
    }
}
