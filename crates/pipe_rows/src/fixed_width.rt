//! Values of fixed width under both encodings.

ghost use Rattle.std.specs.Prelude.{◌≡◌, ◌<◌, ◌+◌, ◌∷◌, [], length, map, Some};
ghost use Rattle.pipe_column.specs.Native.{InRange};
ghost use Rattle.pipe_schema.specs.Sizes.{width_of};
ghost use Rattle.pipe_rows.specs.Encodings.{encoded_cell};
ghost use Rattle.pipe_rows.specs.Filling.{HasRoomAt, appended_at};
ghost use Rattle.pipe_rows.specs.Ordered.{complement, directed_bytes};

use crate::encoding::Encoding;
use crate::filling::{RowFiller, VALUE};
use pipe_column::Native;

/// How many bytes the widest value of fixed width has.
pub(crate) const MAX_WIDTH: usize = 16;

/// How many bytes the widest cell of fixed width has, the byte before its value included.
const MAX_CELL: usize = MAX_WIDTH + 1;

/// A byte, complemented where it is descending.
pub(crate) fn directed(descending: bool, byte: u8) -> u8
    ensures { result ∷ [] ≡ directed_bytes descending (byte ∷ []) }
{
    if descending { u8::MAX - byte } else { byte }
}

/// Complements some bytes.
fn complement_all(bytes: &mut [u8])
    ensures { bytes.new ≡ map complement bytes.old }
{
    for i in 0..bytes.len() {
        bytes[i] = u8::MAX - bytes[i];
    }
}

/// Complements some bytes where they are descending.
pub(crate) fn direct(descending: bool, bytes: &mut [u8])
    ensures { bytes.new ≡ directed_bytes descending bytes.old }
{
    if descending {
        complement_all(bytes);
    }
}

/// Writes the bytes of a value, without the byte before them.
fn write_value<T: Native>(x: T, encoding: Encoding, target: &mut [u8])
    requires { length target.old ≡ width_of T.dtype_of }
    ensures bytes { 1 ∷ target.new ≡ encoded_cell encoding (T.cell (Some x)) }
    ensures range { InRange (T.cell (Some x)) }
{
    match encoding {
        Encoding::Equality => x.write_little_endian(target),
        Encoding::Ordered(field) => {
            x.write_ordered(target);
            direct(field.descending, target);
        }
    }
}

/// Writes the byte of a value and its bytes.
pub(crate) fn write_cell<T: Native>(x: T, encoding: Encoding, cell: &mut [u8])
    requires { length cell.old ≡ 1 + width_of T.dtype_of }
    ensures bytes { cell.new ≡ encoded_cell encoding (T.cell (Some x)) }
    ensures range { InRange (T.cell (Some x)) }
{
    cell[0] = VALUE;
    write_value(x, encoding, &mut cell[1..]);
}

/// Writes a value at the end of what a row has.
pub(crate) fn put_native<T: Native>(x: T, encoding: Encoding, i: usize, filler: &mut RowFiller)
    requires inside { i < length filler.old }
    requires room { HasRoomAt filler.old i (encoded_cell encoding (T.cell (Some x))) }
    ensures row { filler.new ≡ appended_at filler.old i (encoded_cell encoding (T.cell (Some x))) }
    ensures range { InRange (T.cell (Some x)) }
{
    let mut buffer = [0; MAX_CELL];
    let cell = &mut buffer[..1 + T::width()];
    write_cell(x, encoding, cell);
    filler.append(i, cell);
}
