//! What stands once for each row and column of an unpivot.

ghost use Rattle.std.specs.Prelude.{◌≡◌, ◌+◌, ◌<◌, ◌^◌, ◌++◌, IfOk, OnOk, replicate, map, Some};
ghost use Rattle.pipe_schema.specs.Cell.{string_cell};
ghost use Rattle.pipe_column.specs.Series.{named_cells};
ghost use Rattle.pipe_source.specs.Unpivots.{repeated, name_cell, repeated_cells};

use pipe_column::{Series, StringColumn};
use pipe_schema::{DataType, Text};
use std::alloc::{AllocError, Global};

/// Adds a number, so many times.
fn push_times(numbers: &mut Vec<u32>, number: u32, times: usize) -> Result<(), AllocError>
    ensures { OnOk result (numbers.new.items ≡ numbers.old.items ++ replicate times number) }
{
    for _ in 0..times {
        numbers.push(number)?;
    }
    Ok(())
}

/// So many numbers from a number on, each so many times.
#[tactic(auto, using(crate::proofs::Flat::flat_next))]
pub(crate) fn repeated_places(
    alloc: Global,
    from: u32,
    count: u32,
    times: usize,
) -> Result<Vec<u32>, AllocError>
    requires { from + count < 2 ^ 32 }
    ensures { IfOk result (λ places. places.items ≡ repeated times from count) }
{
    let mut places = Vec::with_capacity(alloc, (count as usize).saturating_mul(times))?;
    for i in 0..count {
        push_times(&mut places, from + i, times)?;
    }
    Ok(places)
}

/// Adds some names.
fn push_names(column: &mut StringColumn, names: &[Text]) -> Result<(), AllocError>
    ensures { OnOk result
        (map string_cell column.new ≡ map string_cell column.old ++ map name_cell names.now) }
{
    for name in names {
        column.push(Some(name.as_str()))?;
    }
    Ok(())
}

/// The names, once for each row, as a column.
#[tactic(auto, using(crate::proofs::Flat::flat_more))]
pub(crate) fn repeated_names(
    alloc: Global,
    name: Text,
    names: &[Text],
    height: usize,
) -> Result<Series, AllocError>
    ensures { IfOk result
        (λ column. column ≡ named_cells name DataType.String (repeated_cells names.now height)) }
{
    let cells = names.len().saturating_mul(height);
    let mut column = StringColumn::with_capacity(alloc, cells)?;
    for _ in 0..height {
        push_names(&mut column, names)?;
    }
    Ok(Series::from_string(name, column))
}
