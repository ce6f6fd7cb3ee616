//! The frames of a self-test.

ghost use Rattle.std.specs.Prelude.{◌≡◌, ◌∷◌, [], map, IfOk};
ghost use Rattle.std.specs.List.{range_with_len};
ghost use Rattle.pipe_schema.specs.Cell.{int64_cell};
ghost use Rattle.pipe_selftest.specs.Frames.{columns_from, frame_from, key_at, drawn_key, left_frame, next, number_at, right_frame, state_after};

use pipe_column::{Column, Series};
use pipe_frame::DataFrame;
use pipe_schema::{List, Text};
use std::alloc::{AllocError, Global};

/// What a state is multiplied by.
const MULTIPLIER: u64 = 6_364_136_223_846_793_005;

/// What is added then.
const INCREMENT: u64 = 1_442_695_040_888_963_407;

/// The state after a state.
fn next(state: u64) -> u64
    ensures { result ≡ next state }
{
    state.wrapping_mul(MULTIPLIER).wrapping_add(INCREMENT)
}

/// The key of a row, by the state that is drawn for it; none where it is null.
#[tactic(auto, using(crate::proofs::Drawn::few_keys))]
fn drawn_key(rows: u32, i: u32, state: u64) -> Option<i64>
    ensures { int64_cell result ≡ drawn_key rows i state }
{
    if i % 16 == 15 {
        return None;
    }
    let keys = rows as u64 / 2 + 1;
    Some(((state >> 33) % keys) as i64)
}

/// The keys that are drawn from a state on, and the state after them.
#[tactic(auto, using(crate::proofs::Drawn::key_more, crate::proofs::Drawn::state_more))]
fn keys_from(alloc: Global, start: u64, rows: u32) -> Result<(Column<i64>, u64), AllocError>
    ensures keys { IfOk result (λ made.
        map int64_cell made.0 ≡ map (key_at start rows) (range_with_len 0 rows)) }
    ensures state { IfOk result (λ made. made.1 ≡ state_after start rows) }
{
    let mut keys = Column::new(alloc);
    let mut state = start;
    for i in 0..rows {
        state = next(state);
        keys.push_option(drawn_key(rows, i, state), 0)?;
    }
    Ok((keys, state))
}

/// The numbers of the rows.
#[tactic(auto, using(crate::proofs::Drawn::number_more))]
fn numbers(alloc: Global, rows: u32) -> Result<Column<i64>, AllocError>
    ensures { IfOk result (λ made. map int64_cell made ≡ map number_at (range_with_len 0 rows)) }
{
    let mut numbers = Column::new(alloc);
    for i in 0..rows {
        numbers.push(i64::from(i))?;
    }
    Ok(numbers)
}

/// The columns of a frame whose keys are drawn from a state on, with the name of the second; and the state after them.
#[tactic(auto, using(crate::proofs::Drawn::two_columns))]
fn columns_from(
    alloc: Global,
    start: u64,
    name: &str,
    rows: u32,
) -> Result<(Vec<Series>, u64), AllocError>
    ensures columns { IfOk result (λ made. made.0.items ≡ columns_from start name.now rows) }
    ensures state { IfOk result (λ made. made.1 ≡ state_after start rows) }
{
    let (keys, state) = keys_from(alloc, start, rows)?;
    let key = Series::from_column(Text::from_str(alloc, "k")?, keys);
    let number = Series::from_column(Text::from_str(alloc, name)?, numbers(alloc, rows)?);
    let mut columns = Vec::with_capacity(alloc, 2)?;
    columns.push(key)?;
    columns.push(number)?;
    Ok((columns, state))
}

/// The frame of these columns, and the state after its keys.
fn frame_from(
    alloc: Global,
    start: u64,
    name: &str,
    rows: u32,
) -> Result<(DataFrame, u64), AllocError>
    ensures frame { IfOk result (λ made. made.0 ≡ frame_from start name.now rows) }
    ensures state { IfOk result (λ made. made.1 ≡ state_after start rows) }
{
    let (columns, state) = columns_from(alloc, start, name, rows)?;
    match DataFrame::new(alloc, columns) {
        Ok(frame) => Ok((frame, state)),
        Err(_) => Err(AllocError),
    }
}

/// The two frames. The scans of them take no memory for cells.
pub(crate) fn frames(alloc: Global, start: u64, rows: u32) -> Result<List<DataFrame>, AllocError>
    ensures { IfOk result (λ made. made ≡ left_frame start rows ∷ right_frame start rows ∷ []) }
{
    let (left, middle) = frame_from(alloc, start, "a", rows)?;
    let (right, _) = frame_from(alloc, middle, "b", rows)?;
    let mut frames = List::new(alloc);
    frames.push(left.shared()?)?;
    frames.push(right.shared()?)?;
    Ok(frames)
}
