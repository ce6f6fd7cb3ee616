//! The types of columns.

ghost use Rattle.std.specs.Prelude.{◌≡◌};
ghost use Rattle.pipe_schema.specs.Cell.{eq_dtype};
ghost use Rattle.pipe_schema.specs.Sizes.{width_of};

/// The type of a column's cells.
#[derive(Clone, Copy, Debug, PartialEq, Eq)]
pub enum DataType {
    Int32,
    Int64,
    UInt32,
    UInt64,
    Boolean,
    String,
    Binary,
    Int128,
}

impl DataType {
    /// Whether two types are the same.
    pub fn is_same(self, other: DataType) -> bool
        ensures { result ≡ eq_dtype self other }
    {
        self == other
    }

    /// How many bytes each cell counts, null or not, beside the length of a text or of bytes.
    pub fn width(self) -> usize
        ensures { result ≡ width_of self }
    {
        match self {
            DataType::Int32 => 4,
            DataType::Int64 => 8,
            DataType::UInt32 => 4,
            DataType::UInt64 => 8,
            DataType::Boolean => 1,
            DataType::String => 8,
            DataType::Binary => 8,
            DataType::Int128 => 16,
        }
    }
}
