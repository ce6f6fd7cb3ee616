//! The rows of a frame at some places, its columns on threads.

ghost use Rattle.std.specs.Prelude.{◌≡◌, ℕ, ◌<◌, length, map, All, IfOk, Some, Ok, slice_get, slice_index_or};
ghost use Rattle.pipe_column.specs.Columns.{AllOfHeight, chosen_columns};
ghost use Rattle.pipe_frame.specs.Frame.{chosen};

use pipe_column::Series;
use pipe_frame::DataFrame;
use pipe_schema::TryClone;
use std::alloc::{AllocError, Global};
use std::mem::replace;
use std::thread::{self, Threads};

/// So many slots without a column.
fn free_slots(alloc: Global, count: usize) -> Result<Vec<Result<Series, AllocError>>, AllocError>
    ensures { IfOk result (λ slots. length slots.items ≡ count) }
{
    let mut slots = Vec::with_capacity(alloc, count)?;
    for _ in 0..count {
        slots.push(Err(AllocError))?;
    }
    Ok(slots)
}

/// Fills each slot with the cells at some places of the column at its place.
fn fill_slots<R: Threads + Sync>(
    rt: &R,
    threads: usize,
    columns: &[Series],
    height: usize,
    places: &[u32],
    slots: &mut [Result<Series, AllocError>],
)
    requires threads { 0 < threads }
    requires even { AllOfHeight height columns.now }
    requires there { All (λ i. i < height) places.now }
    requires slots { length slots.old ≡ length columns.now }
    ensures len { length slots.new ≡ length slots.old }
    ensures filled { (k : ℕ) (d : _) → k < length slots.old → IfOk (slice_index_or slots.new k d)
        (λ column. slice_get (chosen_columns columns.now places.now) k ≡ Some column) }
{
    thread::for_each_mut(
        rt,
        slots,
        threads,
        &|k: usize, slot: &mut Result<Series, AllocError>| -> ()
            requires even { AllOfHeight height columns.now }
            requires there { All (λ i. i < height) places.now }
            requires inside { k < length columns.now }
        { *slot = taken_column(columns, height, places, k) },
    );
}

/// The cells at some places of the column at a place.
fn taken_column(
    columns: &[Series],
    height: usize,
    places: &[u32],
    k: usize,
) -> Result<Series, AllocError>
    requires even { AllOfHeight height columns.now }
    requires there { All (λ i. i < height) places.now }
    requires inside { k < length columns.now }
    ensures { IfOk result
        (λ column. slice_get (chosen_columns columns.now places.now) k ≡ Some column) }
{
    let _ = height;
    Ok(columns[k].take(places)?)
}

/// The columns in some slots, none of which is empty.
fn columns_in(
    alloc: Global,
    mut slots: Vec<Result<Series, AllocError>>,
) -> Result<Vec<Series>, AllocError>
    ensures { IfOk result (λ columns. map Ok columns.items ≡ slots.items) }
{
    let mut columns = Vec::with_capacity(alloc, slots.len())?;
    for k in 0..slots.len() {
        columns.push(replace(&mut slots[k], Err(AllocError))?)?;
    }
    Ok(columns)
}

/// The rows of a frame at some places, by so many threads.
pub(crate) fn taken_on<R: Threads + Sync>(
    rt: &R,
    alloc: Global,
    threads: usize,
    frame: &DataFrame,
    places: &[u32],
) -> Result<DataFrame, AllocError>
    requires some { 0 < threads }
    requires there { All (λ i. i < length frame.now.rows) places.now }
    ensures { IfOk result (λ made. made ≡ chosen frame.now places.now) }
{
    let columns = frame.get_columns();
    let schema = frame.schema().try_clone()?;
    let mut slots = free_slots(alloc, columns.len())?;
    fill_slots(
        rt,
        threads,
        columns,
        frame.height(),
        places,
        slots.as_mut_slice(),
    );
    let taken = columns_in(alloc, slots)?;
    Ok(DataFrame::from_columns(schema, taken))
}
