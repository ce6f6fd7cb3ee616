//! Cells written as texts.

use pipe_column::Native;
use pipe_schema::{AnyValue, Bytes, DataType, List, Text};
use std::alloc::{AllocError, Global};

/// The bytes that some hexadecimal digits spell, none where they spell no bytes.
fn bytes_of(alloc: Global, digits: &str) -> Result<Bytes, AllocError> {
    match hex::decode(alloc, digits) {
        Ok(bytes) => Ok(Bytes::from_vec(bytes)),
        Err(hex::FromHexError::OutOfMemory) => Err(AllocError),
        Err(_) => Ok(Bytes::new(alloc)),
    }
}

/// The cell of a column that a text stands for: null for `-`, and for a text that spells no value of the type.
pub fn cell_of(alloc: Global, dtype: DataType, written: &str) -> Result<AnyValue, AllocError> {
    if written == "-" {
        return Ok(AnyValue::Null);
    }
    match dtype {
        DataType::Int32 => Ok(i32::any_value(written.parse::<i32>().ok())),
        DataType::Int64 => Ok(i64::any_value(written.parse::<i64>().ok())),
        DataType::UInt32 => Ok(u32::any_value(written.parse::<u32>().ok())),
        DataType::UInt64 => Ok(u64::any_value(written.parse::<u64>().ok())),
        DataType::Boolean => Ok(AnyValue::Boolean(written == "true")),
        DataType::String => Ok(AnyValue::String(Text::from_str(alloc, written)?)),
        DataType::Binary => Ok(AnyValue::Binary(bytes_of(alloc, written)?)),
        DataType::Int128 => Ok(i128::any_value(written.parse::<i128>().ok())),
    }
}

/// Names as texts.
pub fn texts(alloc: Global, names: &[&str]) -> Result<List<Text>, AllocError> {
    let mut made = List::new(alloc);
    for name in names {
        made.push(Text::from_str(alloc, name)?)?;
    }
    Ok(made)
}
