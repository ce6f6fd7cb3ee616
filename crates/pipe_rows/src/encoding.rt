//! The two encodings of a column.

ghost use Rattle.std.specs.Prelude.{◌≡◌, [], ◌∷◌, if◌then◌else◌};
ghost use Rattle.pipe_rows.specs.Encodings.{encoded_cell};

use crate::sort_field::SortField;
use pipe_schema::AnyValue;

/// What stands for a null where rows are to be told apart, and where nulls are first.
const NULL: u8 = 0;

/// What stands for a null where nulls are last.
const NULL_LAST: u8 = 255;

/// How the cells of a column become bytes.
#[derive(Clone, Copy)]
pub(crate) enum Encoding {
    /// Bytes that are equal exactly where the cells are.
    Equality,
    /// Bytes that are ordered as the cells under a sort key.
    Ordered(SortField),
}

impl Encoding {
    /// The byte of a null.
    pub(crate) fn null_byte(self) -> u8
        ensures { result ∷ [] ≡ encoded_cell self AnyValue.Null }
    {
        match self {
            Encoding::Equality => NULL,
            Encoding::Ordered(field) => ordered_null(field.nulls_last),
        }
    }
}

/// What stands for a null under the ordered encoding.
pub(crate) fn ordered_null(nulls_last: bool) -> u8
    ensures { result ≡ (if nulls_last then 255 else 0) }
{
    if nulls_last { NULL_LAST } else { NULL }
}
