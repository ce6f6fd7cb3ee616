//! The values of a series, each in the column of its type.

ghost use Rattle.std.specs.Prelude.{map, take, drop, sum_by, ◌^◌, ◌+◌, ◌≤◌, ◌≡◌, ◌<◌, [], ◌∷◌, ◌++◌, length, IsTrue, IfOk, OnOk, OnErr, IfSome, is_some};
ghost use Rattle.std.specs.Option.{option_copied};
ghost use Rattle.pipe_schema.specs.Cell.{eq_dtype, fits_dtype, is_null_cell, string_cell, binary_cell};
ghost use Rattle.pipe_schema.specs.Sizes.{cell_size};
ghost use Rattle.pipe_column.specs.Series.{cells_of, dtype_of_values, cell_at, part_of, TakesCells};

use crate::bytes_column::BinaryColumn;
use crate::column::Column;
use crate::place::Place;
use crate::string_column::StringColumn;
use pipe_schema::{AnyValue, DataType};
use std::alloc::{AllocError, Global};

/// The values of a series, each in the column of its type.
#[derive(Debug, Drop)]
pub(crate) enum Values {
    Int32(Column<i32>),
    Int64(Column<i64>),
    UInt32(Column<u32>),
    UInt64(Column<u64>),
    Boolean(Column<bool>),
    String(StringColumn),
    Binary(BinaryColumn),
    Int128(Column<i128>),
}

impl Values {
    /// The values of a type, none yet.
    pub(crate) fn new(alloc: Global, dtype: DataType) -> Values
        ensures dtype { dtype_of_values result ≡ dtype }
        ensures cells { cells_of result ≡ [] }
    {
        match dtype {
            DataType::Int32 => Values::Int32(Column::new(alloc)),
            DataType::Int64 => Values::Int64(Column::new(alloc)),
            DataType::UInt32 => Values::UInt32(Column::new(alloc)),
            DataType::UInt64 => Values::UInt64(Column::new(alloc)),
            DataType::Boolean => Values::Boolean(Column::new(alloc)),
            DataType::String => Values::String(StringColumn::new(alloc)),
            DataType::Binary => Values::Binary(BinaryColumn::new(alloc)),
            DataType::Int128 => Values::Int128(Column::new(alloc)),
        }
    }

    /// The values of a type, none yet, and room for so many but for the bytes of texts.
    pub(crate) fn with_capacity(
        alloc: Global,
        dtype: DataType,
        places: usize,
    ) -> Result<Values, AllocError>
        ensures dtype { IfOk result (λ made. dtype_of_values made ≡ dtype) }
        ensures cells { IfOk result (λ made. cells_of made ≡ []) }
    {
        Ok(match dtype {
            DataType::Int32 => Values::Int32(Column::with_capacity(alloc, places)?),
            DataType::Int64 => Values::Int64(Column::with_capacity(alloc, places)?),
            DataType::UInt32 => Values::UInt32(Column::with_capacity(alloc, places)?),
            DataType::UInt64 => Values::UInt64(Column::with_capacity(alloc, places)?),
            DataType::Boolean => Values::Boolean(Column::with_capacity(alloc, places)?),
            DataType::String => Values::String(StringColumn::with_capacity(alloc, places)?),
            DataType::Binary => Values::Binary(BinaryColumn::with_capacity(alloc, places)?),
            DataType::Int128 => Values::Int128(Column::with_capacity(alloc, places)?),
        })
    }

    /// The type.
    pub(crate) fn dtype(&self) -> DataType
        ensures { result ≡ dtype_of_values self.now }
    {
        match self {
            Values::Int32(_) => DataType::Int32,
            Values::Int64(_) => DataType::Int64,
            Values::UInt32(_) => DataType::UInt32,
            Values::UInt64(_) => DataType::UInt64,
            Values::Boolean(_) => DataType::Boolean,
            Values::String(_) => DataType::String,
            Values::Binary(_) => DataType::Binary,
            Values::Int128(_) => DataType::Int128,
        }
    }

    /// How many cells there are.
    pub(crate) fn len(&self) -> usize
        ensures { result ≡ length (cells_of self.now) }
    {
        match self {
            Values::Int32(column) => column.len(),
            Values::Int64(column) => column.len(),
            Values::UInt32(column) => column.len(),
            Values::UInt64(column) => column.len(),
            Values::Boolean(column) => column.len(),
            Values::String(column) => column.len(),
            Values::Binary(column) => column.len(),
            Values::Int128(column) => column.len(),
        }
    }
}

impl Values {
    /// Puts a cell at the end.
    pub(crate) fn push(&mut self, cell: &AnyValue) -> Result<(), AllocError>
        requires { IsTrue (fits_dtype (dtype_of_values self.old) cell.now) }
        ensures dtype { dtype_of_values self.new ≡ dtype_of_values self.old }
        ensures ok { OnOk result (cells_of self.new ≡ cells_of self.old ++ cell.now ∷ []) }
        ensures err { OnErr result (cells_of self.new ≡ cells_of self.old) }
    {
        match self {
            Values::Int32(column) => column.push_cell(cell),
            Values::Int64(column) => column.push_cell(cell),
            Values::UInt32(column) => column.push_cell(cell),
            Values::UInt64(column) => column.push_cell(cell),
            Values::Boolean(column) => column.push_cell(cell),
            Values::String(column) => column.push(string_of(cell)),
            Values::Binary(column) => column.push(binary_of(cell)),
            Values::Int128(column) => column.push_cell(cell),
        }
    }

    /// Whether a cell is missing.
    pub(crate) fn is_null(&self, i: usize) -> bool
        requires { i < length (cells_of self.now) }
        ensures { result ≡ is_null_cell (cell_at (cells_of self.now) i) }
    {
        match self {
            Values::Int32(column) => column.get(i).is_none(),
            Values::Int64(column) => column.get(i).is_none(),
            Values::UInt32(column) => column.get(i).is_none(),
            Values::UInt64(column) => column.get(i).is_none(),
            Values::Boolean(column) => column.get(i).is_none(),
            Values::String(column) => column.get(i).is_none(),
            Values::Binary(column) => column.get(i).is_none(),
            Values::Int128(column) => column.get(i).is_none(),
        }
    }

    /// The cell at a place.
    pub(crate) fn get(&self, i: usize) -> Result<AnyValue, AllocError>
        requires { i < length (cells_of self.now) }
        ensures { IfOk result (λ cell. cell ≡ cell_at (cells_of self.now) i) }
    {
        match self {
            Values::Int32(column) => Ok(column.cell(i)),
            Values::Int64(column) => Ok(column.cell(i)),
            Values::UInt32(column) => Ok(column.cell(i)),
            Values::UInt64(column) => Ok(column.cell(i)),
            Values::Boolean(column) => Ok(column.cell(i)),
            Values::String(column) => AnyValue::from_string(column.allocator(), column.get(i)),
            Values::Binary(column) => AnyValue::from_binary(column.allocator(), column.get(i)),
            Values::Int128(column) => Ok(column.cell(i)),
        }
    }
}

#[tactic(auto, using(crate::proofs::SeriesCells::series_rules))]
impl Values {
    /// The cells at these places, null where there is none.
    pub(crate) fn take_at<P: Place>(
        &self,
        alloc: Global,
        places: &[P],
    ) -> Result<Values, AllocError>
        ensures dtype { IfOk result (λ taken. dtype_of_values taken ≡ dtype_of_values self.now) }
        ensures cells { IfOk result (λ taken. TakesCells (map P.place places.now) self.now taken) }
    {
        match self {
            Values::Int32(column) => Ok(Values::Int32(column.take_at(alloc, places, 0)?)),
            Values::Int64(column) => Ok(Values::Int64(column.take_at(alloc, places, 0)?)),
            Values::UInt32(column) => Ok(Values::UInt32(column.take_at(alloc, places, 0)?)),
            Values::UInt64(column) => Ok(Values::UInt64(column.take_at(alloc, places, 0)?)),
            Values::Boolean(column) => Ok(Values::Boolean(column.take_at(alloc, places, false)?)),
            Values::String(column) => Ok(Values::String(column.take_at(alloc, places)?)),
            Values::Binary(column) => Ok(Values::Binary(column.take_at(alloc, places)?)),
            Values::Int128(column) => Ok(Values::Int128(column.take_at(alloc, places, 0)?)),
        }
    }

    /// So many cells from a place on.
    pub(crate) fn slice(&self, from: usize, count: usize) -> Result<Values, AllocError>
        requires { from + count ≤ length (cells_of self.now) }
        ensures dtype { IfOk result (λ part. dtype_of_values part ≡ dtype_of_values self.now) }
        ensures cells { IfOk result (λ v. cells_of v ≡ part_of from count (cells_of self.now)) }
    {
        match self {
            Values::Int32(column) => Ok(Values::Int32(column.slice(from, count)?)),
            Values::Int64(column) => Ok(Values::Int64(column.slice(from, count)?)),
            Values::UInt32(column) => Ok(Values::UInt32(column.slice(from, count)?)),
            Values::UInt64(column) => Ok(Values::UInt64(column.slice(from, count)?)),
            Values::Boolean(column) => Ok(Values::Boolean(column.slice(from, count)?)),
            Values::String(column) => Ok(Values::String(column.slice(from, count)?)),
            Values::Binary(column) => Ok(Values::Binary(column.slice(from, count)?)),
            Values::Int128(column) => Ok(Values::Int128(column.slice(from, count)?)),
        }
    }

    /// Lets copies and parts of the values share their memory from now on.
    pub(crate) fn share(&mut self) -> Result<(), AllocError>
        ensures dtype { dtype_of_values self.new ≡ dtype_of_values self.old }
        ensures cells { cells_of self.new ≡ cells_of self.old }
    {
        match self {
            Values::Int32(column) => column.share(),
            Values::Int64(column) => column.share(),
            Values::UInt32(column) => column.share(),
            Values::UInt64(column) => column.share(),
            Values::Boolean(column) => column.share(),
            Values::String(column) => column.share(),
            Values::Binary(column) => column.share(),
            Values::Int128(column) => column.share(),
        }
    }

    /// Keeps so many cells, from the front.
    pub(crate) fn truncate(&mut self, count: usize)
        ensures dtype { dtype_of_values self.new ≡ dtype_of_values self.old }
        ensures cells { cells_of self.new ≡ take count (cells_of self.old) }
    {
        match self {
            Values::Int32(column) => column.truncate(count),
            Values::Int64(column) => column.truncate(count),
            Values::UInt32(column) => column.truncate(count),
            Values::UInt64(column) => column.truncate(count),
            Values::Boolean(column) => column.truncate(count),
            Values::String(column) => column.truncate(count),
            Values::Binary(column) => column.truncate(count),
            Values::Int128(column) => column.truncate(count),
        }
    }

    /// Puts the cells of values of the same type at the end.
    pub(crate) fn append(&mut self, other: &Values) -> Result<(), AllocError>
        requires { dtype_of_values self.old ≡ dtype_of_values other.now }
        ensures dtype { dtype_of_values self.new ≡ dtype_of_values self.old }
        ensures ok { OnOk result (cells_of self.new ≡ cells_of self.old ++ cells_of other.now) }
        ensures err { OnErr result (cells_of self.new ≡ cells_of self.old) }
    {
        match (self, other) {
            (Values::Int32(column), Values::Int32(more)) => column.append(more),
            (Values::Int64(column), Values::Int64(more)) => column.append(more),
            (Values::UInt32(column), Values::UInt32(more)) => column.append(more),
            (Values::UInt64(column), Values::UInt64(more)) => column.append(more),
            (Values::Boolean(column), Values::Boolean(more)) => column.append(more),
            (Values::String(column), Values::String(more)) => column.append(more),
            (Values::Binary(column), Values::Binary(more)) => column.append(more),
            (Values::Int128(column), Values::Int128(more)) => column.append(more),
            // The types are the same.
            _ => unreachable!(),
        }
    }
}

#[tactic(auto, using(crate::proofs::Sizes::size_rules))]
impl Values {
    /// The size of the values, in bytes.
    pub(crate) fn size(&self) -> u64
        requires { sum_by (cell_size (dtype_of_values self.now)) (cells_of self.now) < 2 ^ 64 }
        ensures { result ≡ sum_by (cell_size (dtype_of_values self.now)) (cells_of self.now) }
    {
        match self {
            Values::Int32(column) => 4 * column.len() as u64,
            Values::Int64(column) => 8 * column.len() as u64,
            Values::UInt32(column) => 4 * column.len() as u64,
            Values::UInt64(column) => 8 * column.len() as u64,
            Values::Boolean(column) => 1 * column.len() as u64,
            Values::String(column) => 8 * column.len() as u64 + column.total_len(),
            Values::Binary(column) => 8 * column.len() as u64 + column.total_len(),
            Values::Int128(column) => 16 * column.len() as u64,
        }
    }
}

impl Values {
    /// The values, where they are of the type `String`.
    pub(crate) fn as_string(&self) -> Option<&StringColumn>
        ensures typed { is_some result ≡ eq_dtype (dtype_of_values self.now) DataType.String }
        ensures cells { IfSome result (λ column. cells_of self.now ≡ map string_cell column.now) }
    {
        match self {
            Values::String(column) => Some(column),
            _ => None,
        }
    }

    /// The values, where they are of the type `Binary`.
    pub(crate) fn as_binary(&self) -> Option<&BinaryColumn>
        ensures typed { is_some result ≡ eq_dtype (dtype_of_values self.now) DataType.Binary }
        ensures cells { IfSome result (λ column. cells_of self.now ≡ map binary_cell column.now) }
    {
        match self {
            Values::Binary(column) => Some(column),
            _ => None,
        }
    }
}

/// The text of a cell of the type `String`, or none of null.
fn string_of(cell: &AnyValue) -> Option<&str>
    requires { IsTrue (fits_dtype DataType.String cell.now) }
    ensures { string_cell (option_copied result) ≡ cell.now }
{
    match cell {
        AnyValue::String(x) => Some(x.as_str()),
        _ => None,
    }
}

/// The bytes of a cell of the type `Binary`, or none of null.
fn binary_of(cell: &AnyValue) -> Option<&[u8]>
    requires { IsTrue (fits_dtype DataType.Binary cell.now) }
    ensures { binary_cell (option_copied result) ≡ cell.now }
{
    match cell {
        AnyValue::Binary(x) => Some(x.as_slice()),
        _ => None,
    }
}
