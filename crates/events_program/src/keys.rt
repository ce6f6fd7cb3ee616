//! Keys of marks, read by the types of a join's keys.

use pipe_expr::expr_type;
use pipe_frame::Row;
use pipe_plain::plan_schemas;
use pipe_plan::{Arena, IR, swap_join_order};
use pipe_schema::{AnyValue, Bytes, DataType, Field, List, Text};
use pipe_value::{Item, Value};
use std::alloc::{AllocError, Global};

/// The text of a value as bytes in hexadecimal.
fn bytes_of(alloc: Global, text: &str) -> Result<Option<AnyValue>, AllocError> {
    match hex::decode(alloc, text) {
        Ok(bytes) => Ok(Some(AnyValue::Binary(Bytes::from_vec(bytes)))),
        Err(_) => Ok(None),
    }
}

/// The text of a value as a cell of a type.
fn text_cell(alloc: Global, dtype: DataType, text: &str) -> Result<Option<AnyValue>, AllocError> {
    match dtype {
        DataType::String => Ok(Some(AnyValue::String(Text::from_str(alloc, text)?))),
        DataType::Binary => bytes_of(alloc, text),
        DataType::Int128 => Ok(text.parse::<i128>().ok().map(AnyValue::Int128)),
        DataType::Int32
        | DataType::Int64
        | DataType::UInt32
        | DataType::UInt64
        | DataType::Boolean => Ok(None),
    }
}

/// A number as a cell of a type.
fn number_cell(dtype: DataType, value: &Value) -> Option<AnyValue> {
    match dtype {
        DataType::Int32 => match i32::try_from(value.as_i64()?) {
            Ok(x) => Some(AnyValue::Int32(x)),
            Err(_) => None,
        },
        DataType::Int64 => Some(AnyValue::Int64(value.as_i64()?)),
        DataType::UInt32 => match u32::try_from(value.as_u64()?) {
            Ok(x) => Some(AnyValue::UInt32(x)),
            Err(_) => None,
        },
        DataType::UInt64 => Some(AnyValue::UInt64(value.as_u64()?)),
        DataType::Boolean | DataType::String | DataType::Binary | DataType::Int128 => None,
    }
}

/// The cell of a type that a value spells.
fn cell_of(alloc: Global, dtype: DataType, value: &Value) -> Result<Option<AnyValue>, AllocError> {
    match value {
        Value::Null => Ok(Some(AnyValue::Null)),
        Value::Bool(b) => match dtype {
            DataType::Boolean => Ok(Some(AnyValue::Boolean(*b))),
            _ => Ok(None),
        },
        Value::String(text) => text_cell(alloc, dtype, text.as_str()),
        Value::Number(_) => Ok(number_cell(dtype, value)),
        _ => Ok(None),
    }
}

/// The nodes of a plan with their schemas, by which keys are read.
#[derive(Drop)]
pub(crate) struct KeyTypes<'a> {
    arena: &'a Arena,
    schemas: List<List<Field>>,
}

impl<'a> KeyTypes<'a> {
    /// Those of a plan.
    pub(crate) fn of(alloc: Global, arena: &'a Arena) -> Result<KeyTypes<'a>, AllocError> {
        let schemas = plan_schemas(alloc, arena)?;
        Ok(KeyTypes { arena, schemas })
    }

    /// The type of the key at a place of the built side of a join; none where the node is no join, or has no such key.
    fn key_type(&self, node: u32, place: usize) -> Option<DataType> {
        let Some(
            IR::Join {
                left,
                right,
                left_on,
                right_on,
                options,
            },
        ) = self.arena.nodes.as_slice().get(node as usize)
        else {
            return None;
        };
        let (built, on) = if swap_join_order(options) {
            (*right, right_on)
        } else {
            (*left, left_on)
        };
        let schema = self.schemas.as_slice().get(built as usize)?;
        expr_type(on.as_slice().get(place)?, schema.as_slice())
    }
}

/// The key at a node that some values spell, as far as they spell one; none where the node is no join.
pub(crate) fn key_of(
    alloc: Global,
    types: &KeyTypes,
    node: u32,
    values: &[Item],
) -> Result<Row, AllocError> {
    let mut key = Row::new(alloc);
    for (place, value) in values.iter().enumerate() {
        let Some(dtype) = types.key_type(node, place) else {
            return Ok(Row::new(alloc));
        };
        match cell_of(alloc, dtype, value.value())? {
            Some(cell) => key.push(cell)?,
            None => return Ok(Row::new(alloc)),
        }
    }
    Ok(key)
}
