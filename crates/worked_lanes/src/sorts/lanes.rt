//! A sort whose rows come over two lanes.

ghost use Rattle.std.specs.Prelude.{◌≡◌, ◌≤◌, [], true, length, IfOk};
ghost use Rattle.pipe_sort.specs.SortKeys.{AreWithin};

use crate::told::{frame_text, not_made};
use pipe_frame::{DataChunk, DataFrame};
use pipe_ops::{FinalizedSink, PExecutionContext, Sink};
use pipe_rows::SortField;
use pipe_schema::{List, TryClone};
use pipe_sort::{SortKey, SortSink, SortSlice};
use std::alloc::{AllocError, Global};
use std::thread::Threads;
use worked_columns::{WrittenColumn, frame_of};

/// The most rows of a sink.
const MOST: usize = 4_294_967_294;

/// A key: a column by its place, its direction, and whether its nulls are last.
pub(crate) fn key(column: u32, descending: bool, nulls_last: bool) -> SortKey {
    SortKey {
        column,
        field: SortField {
            descending,
            nulls_last,
        },
    }
}

/// The first column, ascending, nulls first.
pub(crate) fn by_first() -> SortKey {
    key(0, false, false)
}

/// The numbers of a run.
fn context() -> PExecutionContext {
    PExecutionContext {
        workers: 2,
        chunk_rows: 10,
        row_limit: 1000,
    }
}

/// Whether each key's column is one of so many.
fn are_within(keys: &[SortKey], width: usize) -> bool
    ensures { result ≡ true → AreWithin width keys.now }
{
    for key in keys {
        if key.column as usize >= width {
            return false;
        }
    }
    true
}

/// The keys as a list.
fn listed(alloc: Global, keys: &[SortKey]) -> Result<List<SortKey>, AllocError>
    ensures { IfOk result (λ list. list ≡ keys.now) }
{
    Ok(List::from_vec(Vec::from_slice(alloc, keys)?))
}

/// A lane's sort with the rows of a frame.
fn sunk(alloc: Global, mut sink: SortSink, frame: DataFrame) -> Result<SortSink, AllocError>
    requires empty { sink.rows ≡ [] }
    requires schema { frame.schema ≡ sink.settings.schema }
    requires few { length frame.rows ≤ 4294967294 }
    ensures settings { IfOk result (λ made. made.settings ≡ sink.settings) }
    ensures rows { IfOk result (λ made. length made.rows ≡ length frame.rows) }
{
    sink.sink(alloc, &context(), DataChunk::new(0, frame))?;
    Ok(sink)
}

/// What a sort ends as whose rows came over two lanes, half of them over each.
fn over_two(
    alloc: Global,
    keys: &[SortKey],
    slice: Option<SortSlice>,
    frame: &DataFrame,
) -> Result<String, AllocError>
    requires keys { AreWithin (length frame.now.schema) keys.now }
    requires few { length frame.now.rows ≤ 4294967294 }
{
    let half = frame.height() / 2;
    let schema = frame.schema().try_clone()?;
    let first = SortSink::new(alloc, listed(alloc, keys)?, slice, schema);
    let second = first.split(alloc, 1)?;
    let mut first = sunk(alloc, first, frame.slice(0, half)?)?;
    let second = sunk(alloc, second, frame.slice(half, frame.height() - half)?)?;
    first.combine(alloc, second)?;
    match first.finalize(alloc, &context())? {
        FinalizedSink::Finished(made) => frame_text(alloc, &made),
        FinalizedSink::Operator(()) => String::from_str(alloc, "operator"),
        FinalizedSink::Source(()) => String::from_str(alloc, "source"),
    }
}

/// What a sort of a frame ends as.
pub(crate) fn sorted_text(
    alloc: Global,
    keys: &[SortKey],
    slice: Option<SortSlice>,
    frame: &DataFrame,
) -> Result<String, AllocError> {
    if frame.height() <= MOST && are_within(keys, frame.width()) {
        over_two(alloc, keys, slice, frame)
    } else {
        not_made(alloc)
    }
}

/// The rows of a frame, sorted on threads.
fn on_threads<R: Threads + Sync>(
    rt: &R,
    alloc: Global,
    keys: &[SortKey],
    frame: DataFrame,
) -> Result<DataFrame, AllocError>
    requires keys { AreWithin (length frame.schema) keys.now }
    requires few { length frame.rows ≤ 4294967294 }
{
    let schema = frame.schema().try_clone()?;
    let sink = SortSink::new(alloc, listed(alloc, keys)?, None, schema);
    let sink = sunk(alloc, sink, frame)?;
    Ok(sink.sorted_on(rt, alloc, 2)?)
}

/// The same, none where a key has no column.
pub(crate) fn sorted_on_threads<R: Threads + Sync>(
    rt: &R,
    alloc: Global,
    keys: &[SortKey],
    frame: DataFrame,
) -> Result<Option<DataFrame>, AllocError> {
    if frame.height() <= MOST && are_within(keys, frame.width()) {
        Ok(Some(on_threads(rt, alloc, keys, frame)?))
    } else {
        Ok(None)
    }
}

/// What a sort of some columns ends as.
pub(crate) fn sorted_columns(
    alloc: Global,
    columns: &[WrittenColumn],
    keys: &[SortKey],
    slice: Option<SortSlice>,
) -> Result<String, AllocError> {
    match frame_of(alloc, columns)? {
        Some(frame) => sorted_text(alloc, keys, slice, &frame),
        None => not_made(alloc),
    }
}
