//! The items of an array, packed or not.

ghost use Rattle.std.specs.Prelude.{◌≡◌, ◌<◌, IfOk, MatchOption, None, length, option_map, slice_index_or};
ghost use Rattle.std.specs.Option.{option_copied};
ghost use Rattle.serde_json.specs.Data.{null};
ghost use Rattle.serde_json.specs.Find.{as_array};
ghost use Rattle.pipe_value.specs.Items.{IsArrayOf, elements, item_data, nullable_text};
ghost use Rattle.pipe_value.specs.View.{view};

use crate::columns::{Found, FoundText};
use crate::value::Value;
use std::alloc::{AllocError, Global};

/// An item of an array: lent where it is a value, made where it is packed.
#[derive(Drop)]
pub enum Item<'a> {
    Lent(&'a Value),
    Made(Value),
}

impl<'a> Item<'a> {
    /// The item as a value.
    pub fn value(&self) -> &Value
        ensures { view result.now ≡ item_data self.now }
    {
        match self {
            Item::Lent(value) => *value,
            Item::Made(value) => value,
        }
    }
}

impl Value {
    /// How many items an array has, none of another value. Fails where no number tells it.
    pub fn array_len(&self) -> Result<Option<usize>, AllocError>
        ensures { IfOk result (λ found. MatchOption found (as_array (view self.now) ≡ None)
            (IsArrayOf (view self.now))) }
    {
        match self {
            Value::Array(values) => Ok(Some(values.len())),
            Value::Packed(columns, values) => {
                let Some(packed) = columns.len() else {
                    return Err(AllocError);
                };
                match packed.checked_add(values.len()) {
                    Some(count) => Ok(Some(count)),
                    None => Err(AllocError),
                }
            }
            _ => Ok(None),
        }
    }

    /// The item of an array at a place.
    pub fn item(&self, alloc: Global, i: usize) -> Result<Item<'_>, AllocError>
        requires { i < length (elements (view self.now)) }
        ensures { IfOk result
            (λ item. item_data item ≡ slice_index_or (elements (view self.now)) i null) }
    {
        match self {
            Value::Array(values) => Ok(Item::Lent(&values[i])),
            Value::Packed(columns, values) => match columns.item(alloc, i)? {
                Found::Here(value) => Ok(Item::Made(value)),
                Found::Past(further) => Ok(Item::Lent(&values[further])),
            },
            _ => unreachable!(),
        }
    }

    /// The text of the array's item at a place, or none of null, where the item is one of them.
    pub fn item_as_nullable_str(&self, i: usize) -> Option<Option<&str>>
        requires { i < length (elements (view self.now)) }
        ensures { option_map option_copied result
            ≡ nullable_text (slice_index_or (elements (view self.now)) i null) }
    {
        match self {
            Value::Array(values) => values[i].as_nullable_str(),
            Value::Packed(columns, values) => match columns.nullable_str(i) {
                FoundText::Here(text) => text,
                FoundText::Past(further) => values[further].as_nullable_str(),
            },
            _ => unreachable!(),
        }
    }
}
