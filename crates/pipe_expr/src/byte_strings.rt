//! The texts or byte strings that an operand has, where they stand.

ghost use Rattle.std.specs.Prelude.{◌≡◌, ◌<◌, length, map, IsTrue};
ghost use Rattle.std.specs.Option.{option_copied};
ghost use Rattle.pipe_schema.specs.Cell.{fits_dtype, string_cell, binary_cell};
ghost use Rattle.pipe_column.specs.Column.{nullable_at};
ghost use Rattle.pipe_schema.specs.declared.data_type.DataType.TheVariants as dtype;
ghost use Rattle.pipe_expr.specs.Operands.{operand_dtype, operand_cells, IsOperand, byte_strings, compared_strings};

use crate::kernel::Test;
use crate::nullable_values::NullableValues;
use crate::operand::Operand;
use pipe_column::{BinaryColumn, Series, StringColumn};
use pipe_schema::AnyValue;

/// Byte strings by row, some of them missing.
#[derive(Clone, Copy)]
pub(crate) enum ByteStrings<'a> {
    Texts(&'a StringColumn),
    Bytes(&'a BinaryColumn),
    /// One at each of so many rows.
    Scalar(Option<&'a [u8]>, usize),
}

#[tactic(auto, using(crate::proofs::NullableRows::nullable_rules))]
impl<'a> ByteStrings<'a> {
    /// The bytes at a row, or none where they are missing.
    fn get(&self, i: usize) -> Option<&[u8]>
        requires { i < length (byte_strings self.now) }
        ensures { option_copied result ≡ nullable_at (byte_strings self.now) i }
    {
        match self {
            ByteStrings::Texts(column) => match column.get(i) {
                Some(text) => Some(text.as_bytes()),
                None => None,
            },
            ByteStrings::Bytes(column) => column.get(i),
            ByteStrings::Scalar(bytes, _) => *bytes,
        }
    }
}

/// The texts of a column.
fn texts_of(series: &Series) -> ByteStrings<'_>
    requires { series.now.dtype ≡ dtype.String }
    ensures { series.now.cells ≡ map string_cell (byte_strings result) }
{
    let Some(column) = series.as_string() else {
        unreachable!()
    };
    ByteStrings::Texts(column)
}

/// The byte strings of a column.
fn bytes_of(series: &Series) -> ByteStrings<'_>
    requires { series.now.dtype ≡ dtype.Binary }
    ensures { series.now.cells ≡ map binary_cell (byte_strings result) }
{
    let Some(column) = series.as_binary() else {
        unreachable!()
    };
    ByteStrings::Bytes(column)
}

/// The bytes of the text in a cell, or none of null.
fn text_in(cell: &AnyValue) -> Option<&[u8]>
    requires { IsTrue (fits_dtype dtype.String cell.now) }
    ensures { string_cell (option_copied result) ≡ cell.now }
{
    match cell {
        AnyValue::String(text) => Some(text.as_bytes()),
        _ => None,
    }
}

/// The bytes in a cell, or none of null.
pub(crate) fn bytes_in(cell: &AnyValue) -> Option<&[u8]>
    requires { IsTrue (fits_dtype dtype.Binary cell.now) }
    ensures { binary_cell (option_copied result) ≡ cell.now }
{
    match cell {
        AnyValue::Binary(bytes) => Some(bytes.as_slice()),
        _ => None,
    }
}

/// The texts of an operand.
#[tactic(auto, using(crate::proofs::Operands::operand_rules))]
pub(crate) fn texts<'a>(rows: usize, operand: &'a Operand<'a>) -> ByteStrings<'a>
    requires typed { operand_dtype operand.now ≡ dtype.String }
    requires sized { IsOperand rows operand.now }
    ensures { operand_cells rows operand.now ≡ map string_cell (byte_strings result) }
{
    match operand {
        Operand::Lent(series) => texts_of(series),
        Operand::Owned(series) => texts_of(series),
        Operand::Constant(_, cell) => ByteStrings::Scalar(text_in(cell), rows),
    }
}

/// The byte strings of an operand.
#[tactic(auto, using(crate::proofs::Operands::operand_rules))]
pub(crate) fn bytes<'a>(rows: usize, operand: &'a Operand<'a>) -> ByteStrings<'a>
    requires typed { operand_dtype operand.now ≡ dtype.Binary }
    requires sized { IsOperand rows operand.now }
    ensures { operand_cells rows operand.now ≡ map binary_cell (byte_strings result) }
{
    match operand {
        Operand::Lent(series) => bytes_of(series),
        Operand::Owned(series) => bytes_of(series),
        Operand::Constant(_, cell) => ByteStrings::Scalar(bytes_in(cell), rows),
    }
}

/// A test of how byte strings compare, row by row.
#[derive(Clone, Copy)]
pub(crate) struct ComparedStrings<'a, C> {
    pub(crate) left: ByteStrings<'a>,
    pub(crate) right: ByteStrings<'a>,
    pub(crate) test: C,
}

#[tactic(auto, using(crate::proofs::NullableRows::nullable_rules))]
impl<'a, C: Test> NullableValues for ComparedStrings<'a, C> {
    type Value = bool;

    ghost nullables = { λ s. compared_strings C.test s.left s.right };

    fn nullable(&self, i: usize) -> (bool, bool) {
        match (self.left.get(i), self.right.get(i)) {
            (Some(left), Some(right)) => (true, self.test.passes(left.cmp(&right))),
            _ => (false, false),
        }
    }
}
