//! A JSON value that owns its text.

ghost use Rattle.std.specs.Prelude.{◌≡◌, is_some, option_map, option_and_then};
ghost use Rattle.std.specs.Option.{option_copied};
ghost use Rattle.serde_json.specs.Find.{as_bool, as_i64, as_null, as_number, as_str, as_u64, get};
ghost use Rattle.serde_json.specs.View.{number_view};
ghost use Rattle.pipe_value.specs.Items.{nullable_text};
ghost use Rattle.pipe_value.specs.View.{view};

use crate::columns::Columns;
use serde_json::Number;
use std::collections::BTreeMap;

/// Any JSON value. A long array is packed: first the columns' items, then the further values.
#[derive(Drop)]
pub enum Value {
    Null,
    Bool(bool),
    Number(Number),
    String(String),
    Array(Vec<Value>),
    /// The members, in the order of their names.
    Object(BTreeMap<String, Value>),
    Packed(Box<Columns>, Vec<Value>),
}

impl Value {
    /// Whether it is null.
    pub fn is_null(&self) -> bool
        ensures { result ≡ is_some (as_null (view self.now)) }
    {
        matches!(self, Value::Null)
    }

    /// The truth value that it is.
    pub fn as_bool(&self) -> Option<bool>
        ensures { result ≡ as_bool (view self.now) }
    {
        if let Value::Bool(b) = self {
            Some(*b)
        } else {
            None
        }
    }

    /// The number that it is.
    pub fn as_number(&self) -> Option<&Number>
        ensures { option_map (λ n. number_view n.now) result ≡ as_number (view self.now) }
    {
        if let Value::Number(number) = self {
            Some(number)
        } else {
            None
        }
    }

    /// The number that it is, where that is a whole number below 2^64.
    pub fn as_u64(&self) -> Option<u64>
        ensures { result ≡ option_and_then as_u64 (as_number (view self.now)) }
    {
        match self.as_number() {
            Some(n) => n.as_u64(),
            None => None,
        }
    }

    /// The number that it is, where that is an integer of 64 bits.
    pub fn as_i64(&self) -> Option<i64>
        ensures { result ≡ option_and_then as_i64 (as_number (view self.now)) }
    {
        match self.as_number() {
            Some(n) => n.as_i64(),
            None => None,
        }
    }

    /// The text that it is.
    pub fn as_str(&self) -> Option<&str>
        ensures { option_map (λ s. s.now) result ≡ as_str (view self.now) }
    {
        if let Value::String(text) = self {
            Some(text.as_str())
        } else {
            None
        }
    }

    /// The text, or none of null, where the value is one of them.
    pub fn as_nullable_str(&self) -> Option<Option<&str>>
        ensures { option_map option_copied result ≡ nullable_text (view self.now) }
    {
        match self {
            Value::Null => Some(None),
            Value::String(text) => Some(Some(text.as_str())),
            _ => None,
        }
    }

    /// The member of a name, where the value is an object that has it.
    pub fn get(&self, name: &str) -> Option<&Value>
        ensures { option_map (λ v. view v.now) result ≡ get name.now (view self.now) }
    {
        if let Value::Object(members) = self {
            members.get(name)
        } else {
            None
        }
    }
}
