//! The ordered encoding: rows as bytes whose order is the order of the rows' keys.

ghost use Rattle.std.specs.Prelude.{◌≡◌, ◌<◌, length, map, IfOk, OnOk};
ghost use Rattle.pipe_column.specs.Columns.{AllOfHeight, height_of};
ghost use Rattle.pipe_rows.specs.Encodings.{AreTypedRows};
ghost use Rattle.pipe_rows.specs.Laws.{BytesOrderedAsKeys};
ghost use Rattle.pipe_rows.specs.Ordered.{ordered_rows};

use crate::encode::encode;
use crate::encoding::Encoding;
use crate::rows_encoded::RowsEncoded;
use crate::sort_field::SortField;
use pipe_column::Series;
use std::alloc::{AllocError, Global};

/// The ordered encodings of some fields.
fn ordered_by(alloc: Global, fields: &[SortField]) -> Result<Vec<Encoding>, AllocError>
    ensures { IfOk result (λ encodings. encodings.items ≡ map Encoding.Ordered fields.now) }
{
    let mut encodings = Vec::with_capacity(alloc, fields.len())?;
    for field in fields {
        encodings.push(Encoding::Ordered(*field))?;
    }
    Ok(encodings)
}

/// The rows of some columns of one height under the ordered encoding, each column by its field: a null is 0, or 255
/// where nulls are last, else 1 and its value; numbers highest byte first, signed ones with their top bit flipped,
/// texts and byte strings with 255 after each 0 and ended by two. A descending value has its bytes complemented.
pub fn convert_columns(
    alloc: Global,
    columns: &[Series],
    fields: &[SortField],
) -> Result<RowsEncoded, AllocError>
    requires some { 0 < length columns.now }
    requires even { AllOfHeight (height_of columns.now) columns.now }
    requires fields { length fields.now ≡ length columns.now }
    ensures rows { IfOk result (λ rows. rows ≡ ordered_rows fields.now columns.now) }
    ensures cells { OnOk result (AreTypedRows columns.now (height_of columns.now)) }
{
    let encodings = ordered_by(alloc, fields)?;
    encode(alloc, columns, encodings.as_slice())
}

/// The law of the ordered encoding: the bytes of rows with one cell of each of some types are ordered as the cells in
/// turn, each by its field, under every mix of flags.
pub fn ordered_encodings()
    ensures { BytesOrderedAsKeys }
{}
