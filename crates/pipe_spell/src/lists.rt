//! Lists, what may be missing, and arrays of two.

ghost use Rattle.std.specs.Prelude.{◌≡◌, IfOk, OnOk};
ghost use Rattle.std.specs.List.{AllByRecursion};
ghost use Rattle.pipe_value.specs.View.{view};
ghost use Rattle.pipe_job.specs.Spelling.{MaybeFits, couple, list, maybe};

use crate::spell::Spell;
use pipe_schema::List;
use pipe_value::Value;
use std::alloc::{AllocError, Global};

/// The array of the values that spell some items.
#[tactic(auto, using(crate::proofs::RangeLists::fit_rules))]
pub(crate) fn list_value<T: Spell>(alloc: Global, items: &[T]) -> Result<Value, AllocError>
    ensures spelled { IfOk result (λ value. view value ≡ list T.spelling items.now) }
    ensures fits { OnOk result (AllByRecursion T.fits items.now) }
{
    let mut values = Vec::with_capacity(alloc, items.len())?;
    for item in items {
        values.push(item.spell(alloc)?)?;
    }
    Ok(Value::Array(values))
}

impl<T: Spell> Spell for List<T> {
    ghost spelling = { list T.spelling };

    ghost fits = { AllByRecursion T.fits };

    fn spell(&self, alloc: Global) -> Result<Value, AllocError> {
        list_value(alloc, self.as_slice())
    }
}

impl<T: Spell> Spell for Option<T> {
    ghost spelling = { maybe T.spelling };

    ghost fits = { MaybeFits T.fits };

    fn spell(&self, alloc: Global) -> Result<Value, AllocError> {
        match self {
            None => Ok(Value::Null),
            Some(item) => item.spell(alloc),
        }
    }
}

/// An array of two values.
pub(crate) fn couple(alloc: Global, first: Value, second: Value) -> Result<Value, AllocError>
    ensures { IfOk result (λ value. view value ≡ couple (view first) (view second)) }
{
    let mut values = Vec::with_capacity(alloc, 2)?;
    values.push(first)?;
    values.push(second)?;
    Ok(Value::Array(values))
}
