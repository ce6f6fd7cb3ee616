//! Lists, and what may be missing.

ghost use Rattle.std.specs.Prelude.{◌≡◌, ◌<◌, is_some, length, map, slice_index_or};
ghost use Rattle.std.specs.List.{AllByRecursion};
ghost use Rattle.serde_json.specs.Data.{null};
ghost use Rattle.serde_json.specs.Find.{as_array};
ghost use Rattle.pipe_value.specs.Items.{IsArrayOf, elements};
ghost use Rattle.pipe_value.specs.View.{view};
ghost use Rattle.pipe_job.specs.Reads.{ReadWhere, ReadsSpelled};
ghost use Rattle.pipe_job.specs.Shape.{is_list, is_maybe};
ghost use Rattle.pipe_job.specs.Spelling.{list, maybe, MaybeFits};

use crate::misread::Misread;
use crate::spelled::Spelled;
use pipe_schema::List;
use pipe_value::Value;
use std::alloc::Global;

/// How many items an array has.
pub(crate) fn count_of(value: &Value) -> Result<usize, Misread>
    ensures { ReadWhere (is_some (as_array (view value.now))) (IsArrayOf (view value.now)) result }
{
    match value.array_len()? {
        Some(count) => Ok(count),
        None => Err(Misread::Other),
    }
}

/// What the item of an array at a place spells.
pub(crate) fn item_at<T: Spelled>(alloc: Global, value: &Value, i: usize) -> Result<T, Misread>
    requires { i < length (elements (view value.now)) }
    ensures { ReadsSpelled T.shape T.spelling T.fits
        (slice_index_or (elements (view value.now)) i null) result }
{
    let item = value.item(alloc, i)?;
    T::read(alloc, item.value())
}

impl<T: Spelled> Spelled for List<T> {
    ghost spelling = { list T.spelling };

    ghost fits = { AllByRecursion T.fits };

    ghost shape = { is_list T.shape };

    #[tactic(auto, using(crate::proofs::SoFar::list_rules))]
    fn read(alloc: Global, value: &Value) -> Result<List<T>, Misread> {
        let count = count_of(value)?;
        let mut items = List::new(alloc);
        for i in 0..count {
            let item = item_at::<T>(alloc, value, i)?;
            items.push(item)?;
        }
        Ok(items)
    }
}

impl<T: Spelled> Spelled for Option<T> {
    ghost spelling = { maybe T.spelling };

    ghost fits = { MaybeFits T.fits };

    ghost shape = { is_maybe T.shape };

    fn read(alloc: Global, value: &Value) -> Result<Option<T>, Misread> {
        match value {
            Value::Null => Ok(None),
            _ => Ok(Some(T::read(alloc, value)?)),
        }
    }
}
