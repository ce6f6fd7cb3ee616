//! The items of arrays.

use pipe_value::{Item, Value};
use std::alloc::{AllocError, Global};

/// The items of an array, none of another value.
pub(crate) fn items_of(alloc: Global, value: &Value) -> Result<Option<Vec<Item<'_>>>, AllocError> {
    let Some(count) = value.array_len()? else {
        return Ok(None);
    };
    let mut items = Vec::new(alloc);
    for i in 0..count {
        items.push(value.item(alloc, i)?)?;
    }
    Ok(Some(items))
}
