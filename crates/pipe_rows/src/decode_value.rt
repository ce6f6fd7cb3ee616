//! The cells of an ordered encoding, taken from the front of some bytes.

ghost use Rattle.std.specs.Prelude.{◌≡◌, IfOk};
ghost use Rattle.std.specs.Option.{MatchOption};
ghost use Rattle.pipe_column.specs.Native.{InRange};
ghost use Rattle.pipe_rows.specs.Ordered.{directed_bytes};
ghost use Rattle.pipe_rows.specs.Decoding.{StepIs, FindsUtf8, FindsText, FindsNative, FindsValue, FindsCell};

use crate::encoding::ordered_null;
use crate::filling::VALUE;
use crate::fixed_width::{MAX_WIDTH, direct, directed};
use crate::sort_field::SortField;
use pipe_column::Native;
use pipe_schema::{AnyValue, Bytes, DataType, Text};
use std::alloc::{AllocError, Global};

/// A cell and how many bytes it took.
#[derive(Drop)]
pub(crate) struct Decoded {
    pub(crate) value: AnyValue,
    pub(crate) used: usize,
}

/// The bytes of a text and how many bytes its escaped form took.
#[derive(Drop)]
pub(crate) struct Unescaped {
    text: Vec<u8>,
    used: usize,
}

/// What stands at the front of an escaped text.
#[derive(Clone, Copy)]
enum Step {
    /// A byte that isn't 0.
    Byte(u8),
    /// An escaped byte 0.
    Zero,
    /// The end of the text.
    End,
    /// Nothing of these.
    Fault,
}

/// What stands at the front of an escaped text.
fn front_step(tail: &[u8], descending: bool) -> Step
    ensures { StepIs result (directed_bytes descending tail.now) }
{
    let Some((first, more)) = tail.split_first() else {
        return Step::Fault;
    };
    let byte = directed(descending, *first);
    if byte != 0 {
        return Step::Byte(byte);
    }
    let Some((second, _)) = more.split_first() else {
        return Step::Fault;
    };
    let next = directed(descending, *second);
    if next == 0 {
        Step::End
    } else if next == u8::MAX {
        Step::Zero
    } else {
        Step::Fault
    }
}

/// The text at the front.
fn unescape(alloc: Global, rest: &[u8], descending: bool) -> Result<Option<Unescaped>, AllocError>
    ensures { IfOk result (λ found. FindsText (directed_bytes descending rest.now) found) }
{
    let mut text = Vec::new(alloc);
    let mut at = 0;
    while at < rest.len() {
        match front_step(&rest[at..], descending) {
            Step::Byte(byte) => {
                text.push(byte)?;
                at += 1;
            }
            Step::Zero => {
                text.push(0)?;
                at += 2;
            }
            Step::End => return Ok(Some(Unescaped { text, used: at + 2 })),
            Step::Fault => return Ok(None),
        }
    }
    Ok(None)
}

/// A value of fixed width at the front, as a cell of its type.
fn take_native<T: Native>(rest: &[u8], descending: bool) -> Option<Decoded>
    ensures { FindsNative T.cell T.dtype_of descending rest.now result }
{
    let width = T::width();
    if rest.len() < width {
        return None;
    }
    let mut buffer = [0; MAX_WIDTH];
    let bytes = &mut buffer[..width];
    bytes.copy_from_slice(&rest[..width]);
    direct(descending, bytes);
    match T::read_ordered(bytes) {
        Some(x) => Some(Decoded {
            value: T::any_value(Some(x)),
            used: width,
        }),
        None => None,
    }
}

/// These bytes as a cell.
fn binary_cell(bytes: Vec<u8>) -> AnyValue
    ensures value { result ≡ AnyValue.Binary bytes.items }
    ensures range { InRange result }
{
    AnyValue::Binary(Bytes::from_vec(bytes))
}

/// These bytes as a text, if they are UTF-8.
fn string_cell(alloc: Global, bytes: &[u8]) -> Result<Option<AnyValue>, AllocError>
    ensures { IfOk result (FindsUtf8 bytes.now) }
{
    match str::from_utf8(bytes) {
        Ok(text) => Ok(Some(AnyValue::String(Text::from_str(alloc, text)?))),
        Err(_) => Ok(None),
    }
}

/// A byte string at the front, as a cell of the type `Binary`.
fn take_binary(alloc: Global, rest: &[u8], descending: bool) -> Result<Option<Decoded>, AllocError>
    ensures { IfOk result (λ found. FindsValue DataType.Binary descending rest.now found) }
{
    match unescape(alloc, rest, descending)? {
        Some(Unescaped { text, used }) => Ok(Some(Decoded {
            value: binary_cell(text),
            used,
        })),
        None => Ok(None),
    }
}

/// A text at the front, as a cell of the type `String`.
fn take_string(alloc: Global, rest: &[u8], descending: bool) -> Result<Option<Decoded>, AllocError>
    ensures { IfOk result (λ found. FindsValue DataType.String descending rest.now found) }
{
    let Some(Unescaped { text, used }) = unescape(alloc, rest, descending)? else {
        return Ok(None);
    };
    match string_cell(alloc, text.as_slice())? {
        Some(value) => Ok(Some(Decoded { value, used })),
        None => Ok(None),
    }
}

/// A value of a type at the front.
fn take_value(
    alloc: Global,
    dtype: DataType,
    rest: &[u8],
    descending: bool,
) -> Result<Option<Decoded>, AllocError>
    ensures { IfOk result (λ found. FindsValue dtype descending rest.now found) }
{
    match dtype {
        DataType::Int32 => Ok(take_native::<i32>(rest, descending)),
        DataType::Int64 => Ok(take_native::<i64>(rest, descending)),
        DataType::UInt32 => Ok(take_native::<u32>(rest, descending)),
        DataType::UInt64 => Ok(take_native::<u64>(rest, descending)),
        DataType::Boolean => Ok(take_native::<bool>(rest, descending)),
        DataType::String => take_string(alloc, rest, descending),
        DataType::Binary => take_binary(alloc, rest, descending),
        DataType::Int128 => Ok(take_native::<i128>(rest, descending)),
    }
}

/// A cell of a type at the front: null, or a value after its byte.
pub(crate) fn take_cell(
    alloc: Global,
    dtype: DataType,
    field: SortField,
    rest: &[u8],
) -> Result<Option<Decoded>, AllocError>
    ensures { IfOk result (λ found. FindsCell field dtype rest.now found) }
{
    let Some((first, more)) = rest.split_first() else {
        return Ok(None);
    };
    if *first == ordered_null(field.nulls_last) {
        return Ok(Some(Decoded {
            value: AnyValue::Null,
            used: 1,
        }));
    }
    if *first != VALUE {
        return Ok(None);
    }
    match take_value(alloc, dtype, more, field.descending)? {
        Some(Decoded { value, used }) => Ok(Some(Decoded {
            value,
            used: used + 1,
        })),
        None => Ok(None),
    }
}
