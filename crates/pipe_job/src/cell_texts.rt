//! The compact JSON text of cells, appended to a buffer with no value in between.

ghost use Rattle.std.specs.Prelude.{◌≡◌, ◌<◌, [], ◌∷◌, ◌++◌, length, slice_index, OnOk};
ghost use Rattle.std.specs.Option.{option_copied};
ghost use Rattle.std.specs.Char.{digit_char};
ghost use Rattle.json.specs.Print.{escape_letter, escape_byte, escape, quoted};
ghost use Rattle.serde_json.specs.Written.{compact_text, comma_if};
ghost use Rattle.hex.specs.Hex.{encode_lower, lower_digits};
ghost use Rattle.pipe_column.specs.Series.{cell_at};
ghost use Rattle.pipe_job.specs.Spelling.{cell_spelling};
ghost use Rattle.pipe_job.specs.Text.{is_plain as stands_for_itself, all_plain, text_or_null, quoted_hex, quoted_decimal, boolean_text};

use itoa::{Buffer, Integer};
use pipe_column::Series;
use pipe_schema::DataType;
use std::alloc::AllocError;

/// The sixteen hexadecimal digits.
const DIGITS: &[u8; 16] = b"0123456789abcdef";

/// Appends a byte.
pub(crate) fn push_byte(out: &mut Vec<u8>, byte: u8) -> Result<(), AllocError>
    ensures { OnOk result (out.new.items ≡ out.old.items ++ byte ∷ []) }
{
    out.push(byte)?;
    Ok(())
}

/// Whether a byte stands for itself in a JSON string.
fn is_plain(byte: u8) -> bool
    ensures { result ≡ stands_for_itself byte }
{
    byte >= 32 && byte != b'"' && byte != b'\\'
}

/// The letter of a byte's short escape, or 0 where it has none.
fn letter_of(byte: u8) -> u8
    ensures { result ≡ escape_letter byte }
{
    match byte {
        b'"' | b'\\' => byte,
        8 => b'b',
        12 => b'f',
        b'\n' => b'n',
        b'\r' => b'r',
        b'\t' => b't',
        _ => 0,
    }
}

/// A hexadecimal digit.
fn digit_of(value: u8) -> u8
    requires { value < 16 }
    ensures { result ≡ digit_char value }
{
    if value < 10 {
        b'0' + value
    } else {
        b'a' - 10 + value
    }
}

/// Appends what stands in a JSON string for a byte.
#[tactic(auto, unfolding(json::specs::Print::escape_byte))]
fn push_escaped(out: &mut Vec<u8>, byte: u8) -> Result<(), AllocError>
    ensures { OnOk result (out.new.items ≡ out.old.items ++ escape_byte byte) }
{
    let letter = letter_of(byte);
    if letter > 0 {
        return out.extend_from_slice(&[b'\\', letter]);
    }
    if byte < 32 {
        return out.extend_from_slice(&[
            b'\\',
            b'u',
            b'0',
            b'0',
            digit_of(byte / 16),
            digit_of(byte % 16),
        ]);
    }
    push_byte(out, byte)
}

/// Whether each byte of a text stands for itself in a JSON string.
fn is_all_plain(text: &[u8]) -> bool
    ensures { result ≡ all_plain text.now }
{
    for byte in text {
        if !is_plain(*byte) {
            return false;
        }
    }
    true
}

/// Appends the bytes of a text as they stand in a JSON string. A text that needs no escape is copied whole.
#[tactic(auto, using(crate::proofs::Texts::escape_plain))]
fn push_escape(out: &mut Vec<u8>, text: &[u8]) -> Result<(), AllocError>
    ensures { OnOk result (out.new.items ≡ out.old.items ++ escape text.now) }
{
    if is_all_plain(text) {
        return out.extend_from_slice(text);
    }
    for byte in text {
        push_escaped(out, *byte)?;
    }
    Ok(())
}

/// Appends a text as a JSON string.
pub(crate) fn push_quoted(out: &mut Vec<u8>, text: &str) -> Result<(), AllocError>
    ensures { OnOk result (out.new.items ≡ out.old.items ++ quoted text.now) }
{
    push_byte(out, b'"')?;
    push_escape(out, text.as_bytes())?;
    push_byte(out, b'"')
}

/// Appends a lower-case hexadecimal digit, which stands for itself in a JSON string.
fn push_digit(out: &mut Vec<u8>, value: u8) -> Result<(), AllocError>
    requires { value < 16 }
    ensures { OnOk result
        (out.new.items ≡ out.old.items ++ escape_byte (slice_index lower_digits value)) }
{
    push_byte(out, DIGITS[value as usize])
}

/// Appends the lower-case hexadecimal digits of some bytes, as they stand in a JSON string.
#[tactic(auto, unfolding(hex::specs::Hex::encode_with))]
fn push_hex(out: &mut Vec<u8>, bytes: &[u8]) -> Result<(), AllocError>
    ensures { OnOk result (out.new.items ≡ out.old.items ++ escape (encode_lower bytes.now)) }
{
    for byte in bytes {
        push_digit(out, *byte / 16)?;
        push_digit(out, *byte % 16)?;
    }
    Ok(())
}

/// Appends a whole number, or null.
pub(crate) fn push_number<I: Integer>(out: &mut Vec<u8>, x: Option<I>) -> Result<(), AllocError>
    ensures { OnOk result (out.new.items ≡ out.old.items ++ text_or_null I.text x) }
{
    match x {
        Some(x) => {
            let mut buffer = Buffer::new();
            out.extend_from_slice(buffer.format(x).as_bytes())
        }
        None => out.extend_from_slice(b"null"),
    }
}

/// Appends a number of 128 bits as a JSON string, or null.
pub(crate) fn push_decimal(out: &mut Vec<u8>, x: Option<i128>) -> Result<(), AllocError>
    ensures { OnOk result (out.new.items ≡ out.old.items ++ text_or_null quoted_decimal x) }
{
    match x {
        Some(x) => {
            let mut buffer = Buffer::new();
            push_quoted(out, buffer.format(x))
        }
        None => out.extend_from_slice(b"null"),
    }
}

/// Appends a truth value, or null.
pub(crate) fn push_boolean(out: &mut Vec<u8>, x: Option<bool>) -> Result<(), AllocError>
    ensures { OnOk result (out.new.items ≡ out.old.items ++ text_or_null boolean_text x) }
{
    match x {
        Some(true) => out.extend_from_slice(b"true"),
        Some(false) => out.extend_from_slice(b"false"),
        None => out.extend_from_slice(b"null"),
    }
}

/// Appends a text, or null.
pub(crate) fn push_string(out: &mut Vec<u8>, x: Option<&str>) -> Result<(), AllocError>
    ensures { OnOk result
        (out.new.items ≡ out.old.items ++ text_or_null quoted (option_copied x.entry)) }
{
    match x {
        Some(text) => push_quoted(out, text),
        None => out.extend_from_slice(b"null"),
    }
}

/// Appends bytes as a text of hexadecimal digits, or null.
pub(crate) fn push_binary(out: &mut Vec<u8>, x: Option<&[u8]>) -> Result<(), AllocError>
    ensures { OnOk result
        (out.new.items ≡ out.old.items ++ text_or_null quoted_hex (option_copied x.entry)) }
{
    match x {
        Some(bytes) => {
            push_byte(out, b'"')?;
            push_hex(out, bytes)?;
            push_byte(out, b'"')
        }
        None => out.extend_from_slice(b"null"),
    }
}

/// Appends a comma, where something stands before.
pub(crate) fn push_comma(out: &mut Vec<u8>, later: bool) -> Result<(), AllocError>
    ensures { OnOk result (out.new.items ≡ out.old.items ++ comma_if later) }
{
    if later { push_byte(out, b',') } else { Ok(()) }
}

/// Appends the text of a column's cell.
#[tactic(auto, using(crate::proofs::Texts::cell_rules))]
pub(crate) fn push_cell(out: &mut Vec<u8>, column: &Series, i: usize) -> Result<(), AllocError>
    requires { i < length column.now.cells }
    ensures { OnOk result
        (out.new.items ≡
        out.old.items ++ compact_text (cell_spelling (cell_at column.now.cells i))) }
{
    if let Some(cells) = column.as_column::<i32>() {
        return push_number(out, cells.at(i));
    }
    if let Some(cells) = column.as_column::<i64>() {
        return push_number(out, cells.at(i));
    }
    if let Some(cells) = column.as_column::<u32>() {
        return push_number(out, cells.at(i));
    }
    if let Some(cells) = column.as_column::<u64>() {
        return push_number(out, cells.at(i));
    }
    if let Some(cells) = column.as_column::<bool>() {
        return push_boolean(out, cells.at(i));
    }
    if let Some(cells) = column.as_string() {
        return push_string(out, cells.get(i));
    }
    if let Some(cells) = column.as_binary() {
        return push_binary(out, cells.get(i));
    }
    match column.as_column::<i128>() {
        Some(cells) => push_decimal(out, cells.at(i)),
        None => unreachable!(),
    }
}
