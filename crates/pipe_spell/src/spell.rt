//! What has a spelling in JSON, and the value that spells it.

ghost use Rattle.std.specs.Prelude.{◌≡◌, ◌^◌, ◌<◌, ⊤, IfOk, OnOk};
ghost use Rattle.serde_json.specs.Data.{Data, boolean, string};
ghost use Rattle.pipe_value.specs.View.{view};
ghost use Rattle.pipe_job.specs.Spelling.{whole};

use pipe_schema::Text;
use pipe_value::Value;
use serde_json::Number;
use std::alloc::{AllocError, Global};

/// What has one spelling in JSON.
pub trait Spell {
    /// How it is spelled.
    ghost spelling: { Self → Data };

    /// What holds of each: its numbers are within their ranges.
    ghost fits: { Self → Type 0 };

    /// The value that spells it.
    fn spell(&self, alloc: Global) -> Result<Value, AllocError>
        ensures spelled { IfOk result (λ value. view value ≡ spelling self.now) }
        ensures fits { OnOk result (fits self.now) };
}

impl Spell for u32 {
    ghost spelling = { whole };

    ghost fits = { λ n. n < 2 ^ 32 };

    fn spell(&self, _alloc: Global) -> Result<Value, AllocError> {
        Ok(Value::Number(Number::from(*self)))
    }
}

impl Spell for u64 {
    ghost spelling = { whole };

    ghost fits = { λ n. n < 2 ^ 64 };

    fn spell(&self, _alloc: Global) -> Result<Value, AllocError> {
        Ok(Value::Number(Number::from(*self)))
    }
}

impl Spell for bool {
    ghost spelling = { boolean };

    ghost fits = { λ _. ⊤ };

    fn spell(&self, _alloc: Global) -> Result<Value, AllocError> {
        Ok(Value::Bool(*self))
    }
}

impl Spell for Text {
    ghost spelling = { string };

    ghost fits = { λ _. ⊤ };

    fn spell(&self, alloc: Global) -> Result<Value, AllocError> {
        Ok(Value::String(String::from_str(alloc, self.as_str())?))
    }
}
