//! The list of a sort.

ghost use Rattle.std.specs.Prelude.{◌≡◌, ◌<◌, ◌^◌, length, IfOk};
ghost use Rattle.pipe_rows.specs.SortOrder.{sorted};
ghost use Rattle.pipe_plan.specs.PlanRows.{flag_at, sort_keys, slice_rows};
ghost use Rattle.pipe_sort.specs.SortKeys.{AreWithin, by_key, by_keys};
ghost use Rattle.pipe_replay.specs.Sorting.{sort_key};

use crate::framing::framed;
use pipe_frame::{DataFrame, Row};
use pipe_plain::{copied_rows, kept_slice, sliced_rows};
use pipe_plan::SortOptions;
use pipe_rows::SortField;
use pipe_schema::{Field, List, Schema, Text};
use pipe_sort::{SortKey, sorted_frame};
use std::alloc::{AllocError, Global};

/// The flag of a key: one flag for several keys stands for each.
fn flag(flags: &[bool], key: usize) -> bool
    ensures { result ≡ flag_at flags.now key }
{
    let i = if flags.len() == 1 { 0 } else { key };
    match flags.get(i) {
        Some(flag) => *flag,
        None => false,
    }
}

/// The key of a name, the i-th. A column beyond 32 bits is want of memory.
#[tactic(auto, using(crate::proofs::SortLemmas::place_below))]
fn sort_key(
    schema: &Schema,
    name: &Text,
    options: &SortOptions,
    i: usize,
) -> Result<SortKey, AllocError>
    ensures key { IfOk result (λ key. by_key key ≡ sort_key schema.now name.now options.now i) }
    ensures within { IfOk result (λ key. key.column < length schema.now) }
{
    let _ = schema.len();
    let place = schema.index_of(name.as_bytes()).unwrap_or(0);
    let Ok(column) = u32::try_from(place) else {
        return Err(AllocError);
    };
    Ok(SortKey {
        column,
        field: SortField {
            descending: flag(options.descending.as_slice(), i),
            nulls_last: flag(options.nulls_last.as_slice(), i),
        },
    })
}

/// The keys of a sort.
fn keys_of(
    alloc: Global,
    schema: &Schema,
    by: &[Text],
    options: &SortOptions,
) -> Result<List<SortKey>, AllocError>
    ensures keys { IfOk result (λ keys. by_keys keys ≡ sort_keys schema.now by.now options.now) }
    ensures within { IfOk result (AreWithin (length schema.now)) }
{
    let mut keys = List::new(alloc);
    for i in 0..by.len() {
        keys.push(sort_key(schema, &by[i], options, i)?)?;
    }
    Ok(keys)
}

/// The rows of a frame.
fn rows_of_frame(alloc: Global, frame: &DataFrame) -> Result<List<Row>, AllocError>
    ensures { IfOk result (λ rows. rows ≡ frame.now.rows) }
{
    let mut rows = List::new(alloc);
    for i in 0..frame.height() {
        rows.push(frame.row(i)?)?;
    }
    Ok(rows)
}

/// The rows of a frame in order.
fn sorted_rows(
    alloc: Global,
    frame: &DataFrame,
    by: &[Text],
    options: &SortOptions,
) -> Result<List<Row>, AllocError>
    requires few { length frame.now.rows < 2 ^ 32 }
    ensures { let keys = sort_keys frame.now.schema by.now options.now in
        IfOk result (λ rows. rows ≡ sorted keys frame.now.rows) }
{
    let keys = keys_of(alloc, frame.schema(), by, options)?;
    let sorted = sorted_frame(alloc, keys.as_slice(), None, frame)?;
    Ok(rows_of_frame(alloc, &sorted)?)
}

/// The rows of a sort: those of an input in order, and of these a slice. Rows that fit the schema are sorted as the
/// frame that they make; any others, which no plan without a fault has, are inserted one by one.
pub(crate) fn sliced_list(
    alloc: Global,
    schema: &[Field],
    by: &[Text],
    options: &SortOptions,
    rows: &[Row],
) -> Result<List<Row>, AllocError>
    ensures { let keys = sort_keys schema.now by.now options.now in
        IfOk result (λ made. made ≡ slice_rows options.now.slice (sorted keys rows.now)) }
{
    let Some(frame) = framed(alloc, schema, rows)? else {
        return Ok(sliced_rows(alloc, schema, by, options, rows)?);
    };
    let rows = sorted_rows(alloc, &frame, by, options)?;
    Ok(copied_rows(alloc, kept_slice(&options.slice, rows.as_slice()))?)
}
