//! The equality encoding: rows as bytes that are equal exactly where the rows are equal, null with null.

ghost use Rattle.std.specs.Prelude.{◌≡◌, ◌<◌, length, IfOk, OnOk};
ghost use Rattle.pipe_column.specs.Columns.{AllOfHeight, height_of};
ghost use Rattle.pipe_rows.specs.Encoded.{equality_rows};
ghost use Rattle.pipe_rows.specs.Encodings.{AreTypedRows};
ghost use Rattle.pipe_rows.specs.Laws.{EqualBytesWhereEqual};

use crate::encode::encode;
use crate::encoding::Encoding;
use crate::rows_encoded::RowsEncoded;
use pipe_column::Series;
use std::alloc::{AllocError, Global};

/// The rows of some columns of one height under the equality encoding: a cell is 0 where it is null, else 1 and
/// its value; numbers lowest byte first, texts and byte strings with their length of eight bytes first.
pub fn convert_columns_no_order(
    alloc: Global,
    columns: &[Series],
) -> Result<RowsEncoded, AllocError>
    requires some { 0 < length columns.now }
    requires even { AllOfHeight (height_of columns.now) columns.now }
    ensures rows { IfOk result (λ rows. rows ≡ equality_rows columns.now) }
    ensures cells { OnOk result (AreTypedRows columns.now (height_of columns.now)) }
{
    let encodings = vec![in alloc; Encoding::Equality; columns.len()]?;
    encode(alloc, columns, encodings.as_slice())
}

/// The law of the equality encoding: rows with one cell of each of some types have the same bytes exactly where
/// their cells are pairwise equal, null with null.
pub fn equal_encodings()
    ensures { EqualBytesWhereEqual }
{}
