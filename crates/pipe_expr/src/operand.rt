//! What a subexpression gives over the rows of a frame.

ghost use Rattle.std.specs.Prelude.{◌≡◌};
ghost use Rattle.pipe_expr.specs.Operands.{operand_dtype};

use pipe_column::Series;
use pipe_schema::{AnyValue, DataType};

/// The values of a subexpression.
#[derive(Drop)]
pub(crate) enum Operand<'a> {
    /// A column of the frame.
    Lent(&'a Series),
    /// A column that the evaluation made.
    Owned(Series),
    /// One cell of a type, at every row.
    Constant(DataType, &'a AnyValue),
}

impl<'a> Operand<'a> {
    /// The type.
    pub(crate) fn dtype(&self) -> DataType
        ensures { result ≡ operand_dtype self.now }
    {
        match self {
            Operand::Lent(series) => series.dtype(),
            Operand::Owned(series) => series.dtype(),
            Operand::Constant(dtype, _) => *dtype,
        }
    }
}
