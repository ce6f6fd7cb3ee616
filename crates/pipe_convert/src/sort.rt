//! The sort of a node.

ghost use Rattle.std.specs.Prelude.{◌≡◌, ◌<◌, List, length, IfOk};
ghost use Rattle.pipe_schema.specs.Rows.{Row};
ghost use Rattle.pipe_plan.specs.Node as node;
ghost use Rattle.pipe_plan.specs.PlanRows.{flag_at, sort_keys, slice_rows};
ghost use Rattle.pipe_sort.specs.SortKeys.{AreWithin, by_key, by_keys, kept_by};
ghost use Rattle.pipe_convert.specs.Converted.{IsNode, IsSinkOf, sort_key};

use pipe_check::CheckedPlan;
use pipe_plan::{PlanSlice, SortOptions};
use pipe_rows::SortField;
use pipe_schema::{List, Schema, Text, TryClone};
use pipe_sort::{SortKey, SortSink, SortSlice};
use std::alloc::{AllocError, Global};

/// The flag of a key: one flag for several keys stands for each.
fn flag_of(flags: &[bool], i: usize) -> bool
    ensures { result ≡ flag_at flags.now i }
{
    let place = if flags.len() == 1 { 0 } else { i };
    match flags.get(place) {
        Some(flag) => *flag,
        None => false,
    }
}

/// The key of a name, the i-th. A column beyond 32 bits is want of memory.
#[tactic(auto, using(crate::proofs::Places::place_below))]
fn sort_key(
    schema: &Schema,
    name: &Text,
    options: &SortOptions,
    i: usize,
) -> Result<SortKey, AllocError>
    ensures key { IfOk result (λ key. by_key key ≡ sort_key schema.now name.now options.now i) }
    ensures within { IfOk result (λ key. key.column < length schema.now) }
{
    let _ = schema.len();
    let place = schema.index_of(name.as_bytes()).unwrap_or(0);
    let Ok(column) = u32::try_from(place) else {
        return Err(AllocError);
    };
    Ok(SortKey {
        column,
        field: SortField {
            descending: flag_of(options.descending.as_slice(), i),
            nulls_last: flag_of(options.nulls_last.as_slice(), i),
        },
    })
}

/// The keys of a sort, in order.
fn keys_of(
    alloc: Global,
    schema: &Schema,
    by: &[Text],
    options: &SortOptions,
) -> Result<List<SortKey>, AllocError>
    ensures keys { IfOk result (λ keys. by_keys keys ≡ sort_keys schema.now by.now options.now) }
    ensures within { IfOk result (AreWithin (length schema.now)) }
{
    let mut keys = List::new(alloc);
    for i in 0..by.len() {
        keys.push(sort_key(schema, &by[i], options, i)?)?;
    }
    Ok(keys)
}

/// The slice of a sort, whose offset isn't negative.
fn slice_of(slice: Option<PlanSlice>) -> Option<SortSlice>
    ensures { ◌≡◌ {A = List Row → List Row} (kept_by result) (slice_rows slice) }
{
    match slice {
        Some(slice) => Some(SortSlice {
            offset: u64::try_from(slice.offset).unwrap_or(0),
            len: slice.len,
        }),
        None => None,
    }
}

/// The sink of a sort.
pub fn sort_sink(
    alloc: Global,
    plan: &CheckedPlan,
    n: u32,
    input: u32,
    by: &List<Text>,
    options: &SortOptions,
) -> Result<SortSink, AllocError>
    requires { IsNode plan.now n (node.Sort input by.now options.now) }
    ensures { IfOk result (IsSinkOf plan.now n input) }
{
    plan.known_well_formed();
    let schema = plan.schema(input);
    let keys = keys_of(alloc, schema, by.as_slice(), options)?;
    let slice = slice_of(options.slice);
    Ok(SortSink::new(alloc, keys, slice, schema.try_clone()?))
}
