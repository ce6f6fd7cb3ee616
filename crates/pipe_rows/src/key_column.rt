//! Columns whose cells become bytes: of values of fixed width, of texts and of byte strings.

ghost use Rattle.std.specs.Prelude.{◌≡◌, ◌<◌, List, length, map, IfOk};
ghost use Rattle.std.specs.Option.{option_copied};
ghost use Rattle.pipe_schema.specs.Cell.{is_null_cell, string_cell, binary_cell};
ghost use Rattle.pipe_column.specs.Series.{cell_at};
ghost use Rattle.pipe_schema.specs.declared.any_value.AnyValue.{AnyValue};
ghost use Rattle.pipe_schema.specs.declared.data_type.DataType.{DataType};
ghost use Rattle.pipe_schema.specs.declared.data_type.DataType.TheVariants as dtype;
ghost use Rattle.pipe_rows.specs.Encoded.{IsLengthOf};
ghost use Rattle.pipe_rows.specs.Encodings.{cell_bytes_at, AppendsCell};
ghost use Rattle.pipe_rows.specs.Equality.{IsCell};
ghost use Rattle.pipe_rows.specs.Filling.{HasRoomAt};

use crate::byte_string::{bytes_width, put_bytes};
use crate::encoding::Encoding;
use crate::filling::RowFiller;
use crate::fixed_width::put_native;
use pipe_column::{BinaryColumn, Column, Native, Series, StringColumn};
use std::alloc::AllocError;

/// A column whose cells can be written as bytes.
pub(crate) trait KeyColumn {
    /// The type of the column.
    ghost dtype_of: { DataType };

    /// The cells of the column.
    ghost cells_of: { Self → List AnyValue };

    /// The column of a series of the type.
    fn of(series: &Series) -> &Self
        requires { series.now.dtype ≡ dtype_of }
        ensures { cells_of result.now ≡ series.now.cells };

    /// Whether a cell is null.
    fn is_null(&self, i: usize) -> bool
        requires { i < length (cells_of self.now) }
        ensures { result ≡ is_null_cell (cell_at (cells_of self.now) i) };

    /// How many bytes a cell has. A width that passes `usize` is refused as memory is.
    fn cell_width(&self, i: usize, encoding: Encoding) -> Result<usize, AllocError>
        requires { i < length (cells_of self.now) }
        ensures { IfOk result (IsLengthOf (cell_bytes_at encoding (cells_of self.now) i)) };

    /// Writes a cell at the end of what a row has.
    fn put_cell(&self, i: usize, encoding: Encoding, filler: &mut RowFiller)
        requires cell { i < length (cells_of self.now) }
        requires inside { i < length filler.old }
        requires room { HasRoomAt filler.old i (cell_bytes_at encoding (cells_of self.now) i) }
        ensures row { AppendsCell encoding (cells_of self.now) i filler.old filler.new }
        ensures cell { IsCell dtype_of (cell_at (cells_of self.now) i) };
}

#[tactic(auto, using(crate::proofs::NativeLemmas::bytes_rules))]
impl<T: Native> KeyColumn for Column<T> {
    ghost dtype_of = { T.dtype_of };

    ghost cells_of = { λ column. map T.cell column };

    fn of(series: &Series) -> &Column<T> {
        match T::column(series) {
            Some(column) => column,
            None => unreachable!(),
        }
    }

    fn is_null(&self, i: usize) -> bool {
        self.get(i).is_none()
    }

    fn cell_width(&self, i: usize, _encoding: Encoding) -> Result<usize, AllocError> {
        if self.get(i).is_some() {
            Ok(1 + T::width())
        } else {
            Ok(1)
        }
    }

    fn put_cell(&self, i: usize, encoding: Encoding, filler: &mut RowFiller) {
        match self.at(i) {
            Some(x) => put_native(x, encoding, i, filler),
            None => filler.append(i, &[encoding.null_byte()]),
        }
    }
}

#[tactic(auto, using(crate::proofs::NativeLemmas::bytes_rules))]
impl KeyColumn for StringColumn {
    ghost dtype_of = { dtype.String };

    ghost cells_of = { λ column. map string_cell column };

    fn of(series: &Series) -> &StringColumn {
        match series.as_string() {
            Some(column) => column,
            None => unreachable!(),
        }
    }

    fn is_null(&self, i: usize) -> bool {
        self.get(i).is_none()
    }

    fn cell_width(&self, i: usize, encoding: Encoding) -> Result<usize, AllocError> {
        match self.get(i) {
            Some(text) => bytes_width(text.as_bytes(), encoding),
            None => Ok(1),
        }
    }

    fn put_cell(&self, i: usize, encoding: Encoding, filler: &mut RowFiller) {
        match self.get(i) {
            Some(text) => put_bytes(text.as_bytes(), encoding, i, filler),
            None => filler.append(i, &[encoding.null_byte()]),
        }
    }
}

#[tactic(auto, using(crate::proofs::NativeLemmas::bytes_rules))]
impl KeyColumn for BinaryColumn {
    ghost dtype_of = { dtype.Binary };

    ghost cells_of = { λ column. map binary_cell column };

    fn of(series: &Series) -> &BinaryColumn {
        match series.as_binary() {
            Some(column) => column,
            None => unreachable!(),
        }
    }

    fn is_null(&self, i: usize) -> bool {
        self.get(i).is_none()
    }

    fn cell_width(&self, i: usize, encoding: Encoding) -> Result<usize, AllocError> {
        match self.get(i) {
            Some(bytes) => bytes_width(bytes, encoding),
            None => Ok(1),
        }
    }

    fn put_cell(&self, i: usize, encoding: Encoding, filler: &mut RowFiller) {
        match self.get(i) {
            Some(bytes) => put_bytes(bytes, encoding, i, filler),
            None => filler.append(i, &[encoding.null_byte()]),
        }
    }
}
