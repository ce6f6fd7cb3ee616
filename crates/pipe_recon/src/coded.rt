//! The frames of a reconciliation: the rows of each side, each as its code and its number.

ghost use Rattle.std.specs.Prelude.{◌≡◌, ◌≤◌, IfOk, length, map};
ghost use Rattle.std.specs.List.{range_with_len};
ghost use Rattle.pipe_schema.specs.Cell.{uint32_cell};
ghost use Rattle.pipe_recon.specs.JoinPlan.{coded_columns, coded_table, number_cell};

use pipe_column::{BinaryColumn, Column, Series};
use pipe_frame::DataFrame;
use pipe_schema::Text;
use std::alloc::{AllocError, Global};

/// The numbers of so many rows.
#[tactic(auto, using(crate::proofs::CodedFrames::number_more))]
fn numbers(alloc: Global, height: u32) -> Result<Column<u32>, AllocError>
    ensures { IfOk result (λ made.
        map uint32_cell made ≡ map number_cell (range_with_len 0 height)) }
{
    let mut numbers = Column::new(alloc);
    for i in 0..height {
        numbers.push(i)?;
    }
    Ok(numbers)
}

/// The columns of some codes and of the numbers of their rows, under these names.
#[tactic(auto, using(crate::proofs::CodedFrames::two_columns))]
fn coded_columns(
    alloc: Global,
    key: &str,
    row: &str,
    codes: BinaryColumn,
) -> Result<Vec<Series>, AllocError>
    requires { length codes ≤ 4294967294 }
    ensures { IfOk result (λ made. made.items ≡ coded_columns key.now row.now codes) }
{
    let numbers = numbers(alloc, codes.len() as u32)?;
    let key = Series::from_binary(Text::from_str(alloc, key)?, codes);
    let row = Series::from_column(Text::from_str(alloc, row)?, numbers);
    let mut columns = Vec::with_capacity(alloc, 2)?;
    columns.push(key)?;
    columns.push(row)?;
    Ok(columns)
}

/// The frame of some codes and of the numbers of their rows, under these names, which differ.
pub(crate) fn coded_frame(
    alloc: Global,
    key: &str,
    row: &str,
    codes: BinaryColumn,
) -> Result<DataFrame, AllocError>
    requires { length codes ≤ 4294967294 }
    ensures { IfOk result (λ frame. frame ≡ coded_table key.now row.now codes) }
{
    match DataFrame::new(alloc, coded_columns(alloc, key, row, codes)?) {
        Ok(frame) => Ok(frame),
        Err(_) => Err(AllocError),
    }
}
