//! Cells: null, or a value of one of the eight types.

ghost use Rattle.std.specs.Prelude.{◌≡◌, IfOk};
ghost use Rattle.std.specs.Option.{option_copied};
ghost use Rattle.pipe_schema.specs.Cell.{dtype_of_cell, fits_dtype, eq_cell, string_cell, binary_cell};

use crate::data_type::DataType;
use crate::text::{Bytes, Text};
use crate::try_clone::TryClone;
use std::alloc::{AllocError, Global};

/// A cell.
#[derive(Debug, Drop)]
pub enum AnyValue {
    Null,
    Int32(i32),
    Int64(i64),
    UInt32(u32),
    UInt64(u64),
    Boolean(bool),
    String(Text),
    Binary(Bytes),
    Int128(i128),
}

impl AnyValue {
    /// The type of a cell, none for null.
    pub fn dtype(&self) -> Option<DataType>
        ensures { result ≡ dtype_of_cell self.now }
    {
        match self {
            AnyValue::Null => None,
            AnyValue::Int32(_) => Some(DataType::Int32),
            AnyValue::Int64(_) => Some(DataType::Int64),
            AnyValue::UInt32(_) => Some(DataType::UInt32),
            AnyValue::UInt64(_) => Some(DataType::UInt64),
            AnyValue::Boolean(_) => Some(DataType::Boolean),
            AnyValue::String(_) => Some(DataType::String),
            AnyValue::Binary(_) => Some(DataType::Binary),
            AnyValue::Int128(_) => Some(DataType::Int128),
        }
    }

    /// Whether the cell may stand in a column of this type: it is null, or of the type.
    pub fn fits(&self, dtype: DataType) -> bool
        ensures { result ≡ fits_dtype dtype self.now }
    {
        match self.dtype() {
            None => true,
            Some(own) => dtype.is_same(own),
        }
    }

    /// Whether two cells are the same, null being the same as null.
    pub fn is_same(&self, other: &AnyValue) -> bool
        ensures { result ≡ eq_cell self.now other.now }
    {
        match self {
            AnyValue::Null => matches!(other, AnyValue::Null),
            AnyValue::Int32(a) => matches!(other, AnyValue::Int32(b) if a == b),
            AnyValue::Int64(a) => matches!(other, AnyValue::Int64(b) if a == b),
            AnyValue::UInt32(a) => matches!(other, AnyValue::UInt32(b) if a == b),
            AnyValue::UInt64(a) => matches!(other, AnyValue::UInt64(b) if a == b),
            AnyValue::Boolean(a) => matches!(other, AnyValue::Boolean(b) if a == b),
            AnyValue::String(a) => matches!(other, AnyValue::String(b) if a.is_same(b)),
            AnyValue::Binary(a) => matches!(other, AnyValue::Binary(b) if a.is_same(b)),
            AnyValue::Int128(a) => matches!(other, AnyValue::Int128(b) if a == b),
        }
    }
}

impl AnyValue {
    /// The cell of a nullable text, which is copied.
    pub fn from_string(alloc: Global, x: Option<&str>) -> Result<AnyValue, AllocError>
        ensures { IfOk result (λ cell. cell ≡ string_cell (option_copied x.entry)) }
    {
        match x {
            Some(x) => Ok(AnyValue::String(Text::from_str(alloc, x)?)),
            None => Ok(AnyValue::Null),
        }
    }

    /// The cell of a nullable byte string, which is copied.
    pub fn from_binary(alloc: Global, x: Option<&[u8]>) -> Result<AnyValue, AllocError>
        ensures { IfOk result (λ cell. cell ≡ binary_cell (option_copied x.entry)) }
    {
        match x {
            Some(x) => Ok(AnyValue::Binary(Bytes::from_slice(alloc, x)?)),
            None => Ok(AnyValue::Null),
        }
    }
}

impl TryClone for AnyValue {
    fn try_clone(&self) -> Result<AnyValue, AllocError> {
        match self {
            AnyValue::Null => Ok(AnyValue::Null),
            AnyValue::Int32(x) => Ok(AnyValue::Int32(*x)),
            AnyValue::Int64(x) => Ok(AnyValue::Int64(*x)),
            AnyValue::UInt32(x) => Ok(AnyValue::UInt32(*x)),
            AnyValue::UInt64(x) => Ok(AnyValue::UInt64(*x)),
            AnyValue::Boolean(x) => Ok(AnyValue::Boolean(*x)),
            AnyValue::String(x) => Ok(AnyValue::String(x.try_clone()?)),
            AnyValue::Binary(x) => Ok(AnyValue::Binary(x.try_clone()?)),
            AnyValue::Int128(x) => Ok(AnyValue::Int128(*x)),
        }
    }
}
