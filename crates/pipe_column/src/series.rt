//! Columns with a name and a type.

ghost use Rattle.std.specs.Prelude.{All, map, take, drop, ◌^◌, ◌+◌, ◌≤◌, ◌≡◌, ◌<◌, [], ◌∷◌, ◌++◌, length, IsTrue, IfSome, IfOk, OnOk, OnErr, is_some};
ghost use Rattle.pipe_schema.specs.Cell.{eq_dtype, fits_dtype, is_null_cell, string_cell, binary_cell};
ghost use Rattle.pipe_column.specs.Sizes.{column_size};
ghost use Rattle.pipe_column.specs.Series.{named_cells, cells_of, dtype_of_values, cell_at};
ghost use Rattle.pipe_column.specs.Columns.{taken_column, part_column, front_column, stacked_column, chosen_column};

use crate::bytes_column::BinaryColumn;
use crate::column::Column;
use crate::native::Native;
use crate::place::Place;
use crate::string_column::StringColumn;
use crate::values::Values;
use pipe_schema::{AnyValue, DataType, Text, TryClone};
use std::alloc::{AllocError, Global};
use std::marker::Model;

/// A column of cells of one type, with a name.
#[derive(Debug)]
pub struct Series {
    name: Text,
    values: Values,
}

impl Drop for Series {
    fn drop(self) {
        let Series { name, values } = self;
        drop(name);
        drop(values);
    }
}

impl Model for Series {
    ghost use Rattle.pipe_column.specs.Series.{Cells, cells_of, dtype_of_values};

    ghost Value = { Cells };

    ghost view = { λ s. record { name = s.name; dtype = dtype_of_values s.values; cells = cells_of s.values } };
}

impl Series {
    /// A column with no cell, which takes no memory.
    pub fn new(alloc: Global, name: Text, dtype: DataType) -> Series
        ensures { result ≡ record { name = name; dtype = dtype; cells = [] } }
    {
        Series {
            name,
            values: Values::new(alloc, dtype),
        }
    }

    /// A column with no cell, and room for so many but for the bytes of texts.
    pub fn with_capacity(
        alloc: Global,
        name: Text,
        dtype: DataType,
        places: usize,
    ) -> Result<Series, AllocError>
        ensures { IfOk result (λ made. made ≡ record { name = name; dtype = dtype; cells = [] }) }
    {
        Ok(Series {
            name,
            values: Values::with_capacity(alloc, dtype, places)?,
        })
    }

    /// The name.
    pub fn name(&self) -> &Text
        ensures { result.now ≡ self.now.name }
    {
        &self.name
    }

    /// The type.
    pub fn dtype(&self) -> DataType
        ensures { result ≡ self.now.dtype }
    {
        self.values.dtype()
    }

    /// How many cells there are.
    pub fn len(&self) -> usize
        ensures { result ≡ length self.now.cells }
    {
        self.values.len()
    }

    /// Whether a cell is null.
    pub fn is_null(&self, i: usize) -> bool
        requires { i < length self.now.cells }
        ensures { result ≡ is_null_cell (cell_at self.now.cells i) }
    {
        self.values.is_null(i)
    }

    /// The cell at a place.
    pub fn get(&self, i: usize) -> Result<AnyValue, AllocError>
        requires { i < length self.now.cells }
        ensures { IfOk result (λ cell. cell ≡ cell_at self.now.cells i) }
    {
        self.values.get(i)
    }

    /// Puts a cell at the end, which is null or of the column's type.
    pub fn push(&mut self, v: AnyValue) -> Result<(), AllocError>
        requires { IsTrue (fits_dtype self.old.dtype v) }
        ensures ok { OnOk result (self.new ≡ record self.old { cells = self.old.cells ++ v ∷ [] }) }
        ensures err { OnErr result (self.new ≡ self.old) }
    {
        self.values.push(&v)
    }

    /// Gives the column another name.
    pub fn rename(&mut self, name: Text)
        ensures { self.new ≡ record self.old { name = name } }
    {
        self.name = name;
    }

    /// The cells at these places, null where there is none, under the same name.
    pub fn take_at<P: Place>(&self, alloc: Global, places: &[P]) -> Result<Series, AllocError>
        ensures { IfOk result (λ taken. taken ≡ taken_column (map P.place places.now) self.now) }
    {
        Ok(Series {
            name: self.name.try_clone()?,
            values: self.values.take_at(alloc, places)?,
        })
    }

    /// The cells at these places, under the same name.
    pub fn take(&self, rows: &[u32]) -> Result<Series, AllocError>
        requires { All (λ i. i < length self.now.cells) rows.now }
        ensures { IfOk result (λ taken. taken ≡ chosen_column rows.now self.now) }
    {
        Ok(self.take_at(self.name.allocator(), rows)?)
    }

    /// So many cells from a place on, under the same name.
    pub fn slice(&self, from: usize, count: usize) -> Result<Series, AllocError>
        requires { from + count ≤ length self.now.cells }
        ensures { IfOk result (λ part. part ≡ part_column from count self.now) }
    {
        Ok(Series {
            name: self.name.try_clone()?,
            values: self.values.slice(from, count)?,
        })
    }

    /// Puts the cells of a column of the same type at the end.
    pub fn append(&mut self, other: &Series) -> Result<(), AllocError>
        requires { self.old.dtype ≡ other.now.dtype }
        ensures ok { OnOk result (self.new ≡ stacked_column self.old other.now) }
        ensures err { OnErr result (self.new ≡ self.old) }
    {
        self.values.append(&other.values)
    }

    /// The size of the cells, in bytes.
    pub fn size(&self) -> u64
        requires { column_size self.now < 2 ^ 64 }
        ensures { result ≡ column_size self.now }
    {
        self.values.size()
    }

    /// Lets copies and parts of the column share its memory from now on.
    pub fn share(&mut self) -> Result<(), AllocError>
        ensures { self.new ≡ self.old }
    {
        self.values.share()
    }

    /// Keeps so many cells, from the front.
    pub fn truncate(&mut self, count: usize)
        ensures { self.new ≡ front_column count self.old }
    {
        self.values.truncate(count);
    }
}

impl TryClone for Series {
    fn try_clone(&self) -> Result<Series, AllocError> {
        Ok(Series {
            name: self.name.try_clone()?,
            values: self.values.slice(0, self.values.len())?,
        })
    }
}

impl Series {
    /// A column of these values, which takes no further memory.
    pub(crate) fn from_values(name: Text, values: Values) -> Series
        ensures { result ≡ named_cells name (dtype_of_values values) (cells_of values) }
    {
        Series { name, values }
    }

    /// The values.
    pub(crate) fn values(&self) -> &Values
        ensures dtype { dtype_of_values result.now ≡ self.now.dtype }
        ensures cells { cells_of result.now ≡ self.now.cells }
    {
        &self.values
    }

    /// The values, by value.
    pub(crate) fn into_values(self) -> Values
        ensures dtype { dtype_of_values result ≡ self.dtype }
        ensures cells { cells_of result ≡ self.cells }
    {
        let Series { name, values } = self;
        drop(name);
        values
    }

    /// The column's values, where they are of this type.
    pub fn as_column<T: Native>(&self) -> Option<&Column<T>>
        ensures typed { is_some result ≡ eq_dtype self.now.dtype T.dtype_of }
        ensures cells { IfSome result (λ column. self.now.cells ≡ map T.cell column.now) }
    {
        T::column(self)
    }

    /// A column of values of this type, which takes no further memory.
    pub fn from_column<T: Native>(name: Text, column: Column<T>) -> Series
        ensures { result ≡ named_cells name T.dtype_of (map T.cell column) }
    {
        T::into_series(name, column)
    }

    /// The column's texts, where its type is `String`.
    pub fn as_string(&self) -> Option<&StringColumn>
        ensures typed { is_some result ≡ eq_dtype self.now.dtype DataType.String }
        ensures cells { IfSome result (λ column. self.now.cells ≡ map string_cell column.now) }
    {
        self.values.as_string()
    }

    /// A column of the type `String`, which takes no further memory.
    pub fn from_string(name: Text, column: StringColumn) -> Series
        ensures { result ≡ named_cells name DataType.String (map string_cell column) }
    {
        Series {
            name,
            values: Values::String(column),
        }
    }

    /// The column's byte strings, where its type is `Binary`.
    pub fn as_binary(&self) -> Option<&BinaryColumn>
        ensures typed { is_some result ≡ eq_dtype self.now.dtype DataType.Binary }
        ensures cells { IfSome result (λ column. self.now.cells ≡ map binary_cell column.now) }
    {
        self.values.as_binary()
    }

    /// A column of the type `Binary`, which takes no further memory.
    pub fn from_binary(name: Text, column: BinaryColumn) -> Series
        ensures { result ≡ named_cells name DataType.Binary (map binary_cell column) }
    {
        Series {
            name,
            values: Values::Binary(column),
        }
    }
}
