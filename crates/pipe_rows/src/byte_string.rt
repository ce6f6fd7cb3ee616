//! Byte strings under both encodings. Texts are written as the byte strings that they are.

ghost use Rattle.std.specs.Prelude.{◌≡◌, ◌<◌, ◌≤◌, ◌+◌, length, IfOk};
ghost use Rattle.std.specs.List.{flat_map};
ghost use Rattle.pipe_column.specs.Native.{InRange};
ghost use Rattle.pipe_rows.specs.Encoded.{IsLengthOf};
ghost use Rattle.pipe_rows.specs.Encodings.{encoded_binary};
ghost use Rattle.pipe_rows.specs.Equality.{equality_cell};
ghost use Rattle.pipe_rows.specs.Filling.{HasRoomAt, appended_at};
ghost use Rattle.pipe_rows.specs.Ordered.{directed_escape, directed_escapes, directed_text, escaped_byte};

use crate::encoding::Encoding;
use crate::filling::{RowFiller, VALUE};
use crate::fixed_width::directed;
use crate::sort_field::SortField;
use pipe_schema::AnyValue;
use std::alloc::AllocError;

/// Writes a length of eight bytes and some bytes after the byte of a value.
fn put_sized(bytes: &[u8], i: usize, filler: &mut RowFiller)
    requires inside { i < length filler.old }
    requires room { HasRoomAt filler.old i (equality_cell (AnyValue.Binary bytes.now)) }
    ensures { filler.new ≡ appended_at filler.old i (equality_cell (AnyValue.Binary bytes.now)) }
{
    filler.append_value(i, &(bytes.len() as u64).to_le_bytes());
    filler.append(i, bytes);
}

/// Writes a byte, 0 as 0, 255.
fn put_escaped(byte: u8, descending: bool, i: usize, filler: &mut RowFiller)
    requires inside { i < length filler.old }
    requires room { HasRoomAt filler.old i (directed_escape descending byte) }
    ensures { filler.new ≡ appended_at filler.old i (directed_escape descending byte) }
{
    let first = directed(descending, byte);
    if byte == 0 {
        filler.append(i, &[first, directed(descending, u8::MAX)]);
    } else {
        filler.append(i, &[first]);
    }
}

/// Writes some bytes, each 0 as 0, 255.
#[tactic(auto, using(crate::proofs::OrderedLemmas::directed_rules))]
fn put_all_escaped(bytes: &[u8], descending: bool, i: usize, filler: &mut RowFiller)
    requires inside { i < length filler.old }
    requires room { HasRoomAt filler.old i (directed_escapes descending bytes.now) }
    ensures { filler.new ≡ appended_at filler.old i (directed_escapes descending bytes.now) }
{
    for byte in bytes {
        put_escaped(*byte, descending, i, filler);
    }
}

/// Writes some bytes, each 0 as 0, 255; at once where they stay as they are.
#[tactic(auto, using(crate::proofs::OrderedLemmas::none_escaped))]
fn put_escapes(bytes: &[u8], descending: bool, i: usize, filler: &mut RowFiller)
    requires inside { i < length filler.old }
    requires room { HasRoomAt filler.old i (directed_escapes descending bytes.now) }
    ensures { filler.new ≡ appended_at filler.old i (directed_escapes descending bytes.now) }
{
    if !descending && count_zeros(bytes) == 0 {
        filler.append(i, bytes);
    } else {
        put_all_escaped(bytes, descending, i, filler);
    }
}

/// Writes the byte of a value and some bytes: each byte 0 as 0, 255, and at the end 0, 0.
fn put_ended(bytes: &[u8], descending: bool, i: usize, filler: &mut RowFiller)
    requires inside { i < length filler.old }
    requires room { HasRoomAt filler.old i (directed_text descending bytes.now) }
    ensures { filler.new ≡ appended_at filler.old i (directed_text descending bytes.now) }
{
    let zero = directed(descending, 0);
    filler.append(i, &[VALUE]);
    put_escapes(bytes, descending, i, filler);
    filler.append(i, &[zero, zero]);
}

/// How many bytes are 0.
fn count_zeros(bytes: &[u8]) -> usize
    ensures count { length bytes.now + result ≡ length (flat_map escaped_byte bytes.now) }
    ensures few { result ≤ length bytes.now }
{
    let mut zeros: usize = 0;
    for byte in bytes {
        zeros += usize::from(*byte == 0);
    }
    zeros
}

/// How wide a byte string is under the equality encoding: the byte of a value, eight of its length, and its bytes.
fn sized_width(bytes: &[u8]) -> usize
    ensures { result ≡ length (equality_cell (AnyValue.Binary bytes.now)) }
{
    9 + bytes.len()
}

/// How wide a byte string is under the ordered encoding: the byte of a value, its bytes, one more for each 0, and the two at the end.
#[tactic(auto, using(crate::proofs::OrderedLemmas::width_rules))]
fn ended_width(bytes: &[u8], field: SortField) -> Result<usize, AllocError>
    ensures { IfOk result (IsLengthOf (directed_text field.descending bytes.now)) }
{
    (bytes.len() + 3)
        .checked_add(count_zeros(bytes))
        .ok_or(AllocError)
}

/// How wide a byte string is, the byte before it included.
pub(crate) fn bytes_width(bytes: &[u8], encoding: Encoding) -> Result<usize, AllocError>
    ensures { IfOk result (IsLengthOf (encoded_binary encoding bytes.now)) }
{
    match encoding {
        Encoding::Equality => Ok(sized_width(bytes)),
        Encoding::Ordered(field) => ended_width(bytes, field),
    }
}

/// Writes a byte string at the end of what a row has.
pub(crate) fn put_bytes(bytes: &[u8], encoding: Encoding, i: usize, filler: &mut RowFiller)
    requires inside { i < length filler.old }
    requires room { HasRoomAt filler.old i (encoded_binary encoding bytes.now) }
    ensures row { filler.new ≡ appended_at filler.old i (encoded_binary encoding bytes.now) }
    ensures range { InRange (AnyValue.Binary bytes.now) }
{
    match encoding {
        Encoding::Equality => put_sized(bytes, i, filler),
        Encoding::Ordered(field) => put_ended(bytes, field.descending, i, filler),
    }
}
