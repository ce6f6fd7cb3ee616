//! The values of some columns of one fixed width, row by row, as one column.

ghost use Rattle.std.specs.Prelude.{◌≡◌, ◌<◌, ◌+◌, ◌++◌, ◌^◌, IfOk, OnOk, map, All, length};
ghost use Rattle.std.specs.List.{AllByRecursion};
ghost use Rattle.pipe_column.specs.Column.{nullable, nullables};
ghost use Rattle.pipe_column.specs.Series.{named_cells};
ghost use Rattle.pipe_column.specs.Validity.{validities};
ghost use Rattle.pipe_source.specs.Lent.{cells_between, lent_cells, HasCells};
ghost use Rattle.pipe_source.specs.Parts.{part_at, part_cells, parts_at, IsEven, HasPlaces};

use pipe_column::{Column, Native, Series, Validities};
use pipe_schema::Text;
use std::alloc::{AllocError, Global};

/// For each value of a column whether it is there, and the values.
type Parts<'a, T> = (Validities<'a>, &'a [T]);

/// The parts of a column.
fn parts_of<'a, T: Native>(column: &'a Series) -> Parts<'a, T>
    requires { column.now.dtype ≡ T.dtype_of }
    ensures even { length (validities result.0) ≡ length result.1.now }
    ensures cells { map T.cell (nullables (validities result.0) result.1.now) ≡ column.now.cells }
{
    match column.as_column::<T>() {
        Some(values) => values.parts(),
        None => unreachable!(),
    }
}

/// The parts of some columns.
fn all_parts<'a, T: Native>(
    alloc: Global,
    columns: &'a [&'a Series],
    end: usize,
) -> Result<Vec<Parts<'a, T>>, AllocError>
    requires { AllByRecursion (HasCells T.dtype_of end) columns.now }
    ensures cells { IfOk result
        (λ all. map (part_cells T.cell) all.items ≡ map lent_cells columns.now) }
    ensures even { IfOk result (λ all. All IsEven all.items) }
{
    let mut all = Vec::with_capacity(alloc, columns.len())?;
    for column in columns {
        all.push(parts_of::<T>(column))?;
    }
    Ok(all)
}

/// Whether the value at a place of a column is there, and the value.
fn nullable_in<T: Copy>(column: &Parts<T>, i: usize) -> (bool, T)
    requires { HasPlaces (i + 1) column.now }
    ensures { nullable result.0 result.1 ≡ part_at i column.now }
{
    (column.0.at(i), column.1[i])
}

/// Adds what stands at a place of each column.
fn push_row<'a, T: Copy + Drop>(
    validity: &mut Vec<bool>,
    values: &mut Vec<T>,
    columns: &'a [Parts<'a, T>],
    i: usize,
) -> Result<(), AllocError>
    requires even { length validity.old.items ≡ length values.old.items }
    requires there { AllByRecursion (HasPlaces (i + 1)) columns.now }
    ensures even { OnOk result (length validity.new.items ≡ length values.new.items) }
    ensures row { OnOk result
        (nullables validity.new.items values.new.items
        ≡ nullables validity.old.items values.old.items ++ parts_at columns.now i) }
{
    validity.reserve(columns.len())?;
    values.reserve(columns.len())?;
    for column in columns {
        let (valid, value) = nullable_in(column, i);
        validity.push_reserved(valid);
        values.push_reserved(value);
    }
    Ok(())
}

/// The values of so many rows from a row on, row by row.
#[tactic(auto, using(crate::proofs::Flat::flat_next))]
pub(crate) fn flattened_values<'a, T: Native>(
    alloc: Global,
    name: Text,
    columns: &'a [&'a Series],
    from: usize,
    count: usize,
) -> Result<Series, AllocError>
    requires few { from + count < 2 ^ 33 }
    requires there { AllByRecursion (HasCells T.dtype_of (from + count)) columns.now }
    ensures { IfOk result
        (λ column. column ≡ named_cells name T.dtype_of (cells_between columns.now from count)) }
{
    let all = all_parts::<T>(alloc, columns, from + count)?;
    let cells = count.saturating_mul(columns.len());
    let mut validity = Vec::with_capacity(alloc, cells)?;
    let mut values = Vec::with_capacity(alloc, cells)?;
    for i in 0..count {
        push_row(&mut validity, &mut values, all.as_slice(), from + i)?;
    }
    Ok(Series::from_column(name, Column::from_parts(validity, values)))
}
