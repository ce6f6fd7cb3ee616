//! Tests for null of columns.

ghost use Rattle.std.specs.Prelude.{◌≡◌, map, IfOk};
ghost use Rattle.pipe_schema.specs.Cell.{is_null_cell};
ghost use Rattle.pipe_schema.specs.declared.data_type.DataType.TheVariants as dtype;
ghost use Rattle.pipe_expr.specs.Nullables.{null_found};
ghost use Rattle.pipe_expr.specs.Values.{null_test_cell};
ghost use Rattle.pipe_expr.specs.Operands.{operand_cells, each_row, IsOperand};

use crate::collect::collect;
use crate::nullable_values::{NullableValues, ScalarValue};
use crate::operand::Operand;
use pipe_column::{Column, Series};
use pipe_schema::{AnyValue, Text};
use std::alloc::{AllocError, Global};

/// Whether null or no null is wanted and found in a column, row by row.
#[derive(Clone, Copy)]
struct NullTest<'a> {
    series: &'a Series,
    wanted: bool,
}

#[tactic(auto, using(crate::proofs::NullCells::null_rules))]
impl<'a> NullableValues for NullTest<'a> {
    type Value = bool;

    ghost nullables = { λ s. map (null_found s.wanted) s.series.now.cells };

    fn nullable(&self, i: usize) -> (bool, bool) {
        (true, self.series.is_null(i) == self.wanted)
    }
}

/// Whether a cell is null.
fn is_null(cell: &AnyValue) -> bool
    ensures { result ≡ is_null_cell cell.now }
{
    match cell {
        AnyValue::Null => true,
        _ => false,
    }
}

/// Whether null or no null is wanted and found in an operand, row by row.
#[tactic(auto, using(crate::proofs::NullCells::null_rules))]
fn tested(
    alloc: Global,
    rows: usize,
    inner: Operand<'_>,
    wanted: bool,
) -> Result<Column<bool>, AllocError>
    requires { IsOperand rows inner }
    ensures { IfOk result (λ c. c ≡ map (null_found wanted) (operand_cells rows inner.entry)) }
{
    match inner {
        Operand::Lent(series) => Ok(collect(alloc, rows, &NullTest { series, wanted })?),
        Operand::Owned(series) => {
            let series = &series;
            Ok(collect(alloc, rows, &NullTest { series, wanted })?)
        }
        Operand::Constant(_, cell) => Ok(collect(
            alloc,
            rows,
            &ScalarValue {
                valid: true,
                value: is_null(cell) == wanted,
                rows,
            },
        )?),
    }
}

/// Whether null, or no null, is found in an operand, row by row: a series without a name.
#[tactic(auto, using(crate::proofs::NullCells::null_rules))]
pub(crate) fn test_for_null(
    alloc: Global,
    rows: usize,
    inner: Operand<'_>,
    wanted: bool,
) -> Result<Series, AllocError>
    requires { IsOperand rows inner }
    ensures dtype { IfOk result (λ made. made.dtype ≡ dtype.Boolean) }
    ensures cells { IfOk result (λ s. s.cells ≡ each_row (null_test_cell wanted) rows inner.entry) }
{
    let column = tested(alloc, rows, inner, wanted)?;
    Ok(Series::from_column(Text::new(alloc), column))
}
