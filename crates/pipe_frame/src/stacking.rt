//! Chunks of one schema as one frame: column by column, each with room for all rows from the start.

ghost use Rattle.std.specs.Prelude.{◌≡◌, ℕ, ◌<◌, ◌++◌, length, map, All, IfOk, OnOk, Some, Ok, slice_get, slice_index_or};
ghost use Rattle.std.specs.List.{flat_map};
ghost use Rattle.pipe_frame.specs.Chunks.{chunk_rows, chunks_table, HasFieldAt, HasSchema};
ghost use Rattle.pipe_column.specs.Columns.{field_of};
ghost use Rattle.pipe_frame.specs.Frame.{cell_of_row, columns_of};
ghost use Rattle.pipe_frame.specs.Queues.{first_cells, others, BeginsWith, chunk_columns, with_cells};
ghost use Rattle.pipe_schema.specs.Rows.{HasWidth};
ghost use Rattle.pipe_column.specs.Series.{named_cells};

use crate::chunk::DataChunk;
use crate::column_queue::ColumnQueue;
use crate::data_frame::DataFrame;
use pipe_column::Series;
use pipe_schema::{Field, Schema, TryClone};
use std::alloc::{AllocError, Global};
use std::mem::replace;
use std::thread;
use std::thread::Threads;

/// The least number of rows whose columns are stacked on threads.
const LEAST_ON_THREADS: usize = 65_536;

/// How many rows some chunks have, each of which has a cell in each column.
fn height_of_all(chunks: &[DataChunk], schema: &Schema) -> Result<usize, AllocError>
    requires { All (HasSchema schema.now) chunks.now }
    ensures height { IfOk result (λ height. height ≡ length (flat_map chunk_rows chunks.now)) }
    ensures whole { OnOk result (All (HasWidth (length schema.now)) (flat_map chunk_rows chunks.now)) }
{
    let mut height: usize = 0;
    for chunk in chunks {
        let Some(more) = height.checked_add(chunk.frame.whole_height()) else {
            return Err(AllocError);
        };
        height = more;
    }
    Ok(height)
}

/// Puts the cells that chunks have in the column at a place behind those of a column of its name and type.
fn append_cells(column: &mut Series, chunks: &[DataChunk], k: usize) -> Result<(), AllocError>
    requires { All (HasFieldAt k (field_of column.old)) chunks.now }
    ensures { OnOk result (column.new ≡ record column.old { cells = column.old.cells ++ map (cell_of_row k) (flat_map chunk_rows chunks.now) }) }
{
    for chunk in chunks {
        column.append(&chunk.frame.get_columns()[k])?;
    }
    Ok(())
}

/// The column at a place, with the cells of all chunks, of which there are so many.
fn stacked_column(
    alloc: Global,
    chunks: &[DataChunk],
    schema: &Schema,
    height: usize,
    k: usize,
) -> Result<Series, AllocError>
    requires chunks { All (HasSchema schema.now) chunks.now }
    requires inside { k < length schema.now }
    ensures { IfOk result (λ column. slice_get (columns_of (chunks_table schema.now chunks.now)) k ≡ Some column) }
{
    let field = schema.field(k);
    let mut column = Series::with_capacity(alloc, field.name.try_clone()?, field.dtype, height)?;
    append_cells(&mut column, chunks, k)?;
    Ok(column)
}

/// The columns of chunks, chunk by chunk.
fn queues_of(alloc: Global, chunks: Vec<DataChunk>) -> Result<Vec<ColumnQueue>, AllocError>
    ensures { IfOk result (λ queues. queues.items ≡ map chunk_columns chunks.items) }
{
    let mut queues = Vec::with_capacity(alloc, chunks.len())?;
    for chunk in chunks {
        queues.push(ColumnQueue::of_frame(chunk.into_frame()))?;
    }
    Ok(queues)
}

/// Puts the first column of a queue behind a column of its type; the others are left.
fn append_first(column: &mut Series, mut queue: ColumnQueue) -> Result<ColumnQueue, AllocError>
    requires { BeginsWith column.old.dtype queue }
    ensures cells { OnOk result (column.new ≡ with_cells column.old (first_cells queue)) }
    ensures left { IfOk result (λ left. left ≡ others queue) }
{
    let Some(first) = queue.take_first() else {
        unreachable!()
    };
    column.append(&first)?;
    Ok(queue)
}

/// Puts the first column of each queue behind a column of their type; the others are left. The memory of each is given
/// back once it is copied.
fn append_firsts(
    alloc: Global,
    column: &mut Series,
    queues: Vec<ColumnQueue>,
) -> Result<Vec<ColumnQueue>, AllocError>
    requires { All (BeginsWith column.old.dtype) queues.items }
    ensures cells { OnOk result (column.new ≡ with_cells column.old (flat_map first_cells queues.items)) }
    ensures left { IfOk result (λ left. left.items ≡ map others queues.items) }
{
    let mut left = Vec::with_capacity(alloc, queues.len())?;
    for queue in queues {
        left.push(append_first(column, queue)?)?;
    }
    Ok(left)
}

/// A column of a field that has the first column of each queue; the others are left.
fn next_column(
    alloc: Global,
    field: &Field,
    queues: Vec<ColumnQueue>,
    height: usize,
) -> Result<(Series, Vec<ColumnQueue>), AllocError>
    requires { All (BeginsWith field.now.dtype) queues.items }
    ensures column { IfOk result (λ it. it.0 ≡ named_cells field.now.name field.now.dtype (flat_map first_cells queues.items)) }
    ensures left { IfOk result (λ it. it.1.items ≡ map others queues.items) }
{
    let mut column = Series::with_capacity(alloc, field.name.try_clone()?, field.dtype, height)?;
    let left = append_firsts(alloc, &mut column, queues)?;
    Ok((column, left))
}

/// All columns, one after another. What a column is made of is given back before the next is made.
fn stacked_columns(
    alloc: Global,
    chunks: Vec<DataChunk>,
    schema: &Schema,
    height: usize,
) -> Result<Vec<Series>, AllocError>
    requires { All (HasSchema schema.now) chunks.items }
    ensures { IfOk result (λ columns. columns.items ≡ columns_of (chunks_table schema.now chunks.items)) }
{
    let mut columns = Vec::with_capacity(alloc, schema.len())?;
    let mut queues = queues_of(alloc, chunks)?;
    for k in 0..schema.len() {
        let (column, left) = next_column(alloc, schema.field(k), queues, height)?;
        queues = left;
        columns.push(column)?;
    }
    Ok(columns)
}

/// The columns in some slots, none of which is empty.
fn columns_in(
    alloc: Global,
    mut slots: Vec<Result<Series, AllocError>>,
) -> Result<Vec<Series>, AllocError>
    ensures { IfOk result (λ columns. map Ok columns.items ≡ slots.items) }
{
    let mut columns = Vec::with_capacity(alloc, slots.len())?;
    for k in 0..slots.len() {
        columns.push(replace(&mut slots[k], Err(AllocError))?)?;
    }
    Ok(columns)
}

/// So many slots without a column.
fn free_slots(alloc: Global, count: usize) -> Result<Vec<Result<Series, AllocError>>, AllocError>
    ensures { IfOk result (λ slots. length slots.items ≡ count) }
{
    let mut slots = Vec::with_capacity(alloc, count)?;
    for _ in 0..count {
        slots.push(Err(AllocError))?;
    }
    Ok(slots)
}

/// Fills each slot with the column at its place, on threads.
fn fill_slots<R: Threads + Sync>(
    rt: &R,
    alloc: Global,
    threads: usize,
    chunks: &[DataChunk],
    schema: &Schema,
    height: usize,
    slots: &mut [Result<Series, AllocError>],
)
    requires threads { 0 < threads }
    requires chunks { All (HasSchema schema.now) chunks.now }
    requires slots { length slots.old ≡ length schema.now }
    ensures len { length slots.new ≡ length slots.old }
    ensures filled { (k : ℕ) (d : _) → k < length slots.old → IfOk (slice_index_or slots.new k d)
        (λ column. slice_get (columns_of (chunks_table schema.now chunks.now)) k ≡ Some column) }
{
    thread::for_each_mut(
        rt,
        slots,
        threads,
        &|k: usize, slot: &mut Result<Series, AllocError>| -> ()
            requires chunks { All (HasSchema schema.now) chunks.now }
            requires inside { k < length schema.now }
        { *slot = stacked_column(alloc, chunks, schema, height, k) },
    );
}

/// All columns, on threads.
fn stacked_on<R: Threads + Sync>(
    rt: &R,
    alloc: Global,
    threads: usize,
    chunks: &[DataChunk],
    schema: &Schema,
    height: usize,
) -> Result<Vec<Series>, AllocError>
    requires threads { 0 < threads }
    requires chunks { All (HasSchema schema.now) chunks.now }
    ensures { IfOk result (λ columns. columns.items ≡ columns_of (chunks_table schema.now chunks.now)) }
{
    let mut slots = free_slots(alloc, schema.len())?;
    fill_slots(
        rt,
        alloc,
        threads,
        chunks,
        schema,
        height,
        slots.as_mut_slice(),
    );
    let columns = columns_in(alloc, slots)?;
    Ok(columns)
}

/// The rows of chunks of one schema, in order, as one frame. It is made column by column, so that no more than one column
/// is there twice.
pub fn chunks_to_df_unchecked(
    alloc: Global,
    chunks: Vec<DataChunk>,
    schema: &Schema,
) -> Result<DataFrame, AllocError>
    requires { All (HasSchema schema.now) chunks.items }
    ensures { IfOk result (λ frame. frame ≡ chunks_table schema.now chunks.items) }
{
    let height = height_of_all(chunks.as_slice(), schema)?;
    let columns = stacked_columns(alloc, chunks, schema, height)?;
    Ok(DataFrame::of_height(schema.try_clone()?, columns, height))
}

/// The rows of chunks of one schema, in order, as one frame, whose columns are stacked on so many threads at most where
/// there are many rows.
pub fn chunks_to_df_on<R: Threads + Sync>(
    rt: &R,
    alloc: Global,
    threads: usize,
    chunks: Vec<DataChunk>,
    schema: &Schema,
) -> Result<DataFrame, AllocError>
    requires { All (HasSchema schema.now) chunks.items }
    ensures { IfOk result (λ frame. frame ≡ chunks_table schema.now chunks.items) }
{
    let height = height_of_all(chunks.as_slice(), schema)?;
    if threads < 2 || height < LEAST_ON_THREADS {
        return chunks_to_df_unchecked(alloc, chunks, schema);
    }
    let columns = stacked_on(rt, alloc, threads, chunks.as_slice(), schema, height)?;
    Ok(DataFrame::of_height(schema.try_clone()?, columns, height))
}
