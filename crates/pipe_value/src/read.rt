//! From text to a value, in one pass over the tokens.

ghost use Rattle.std.specs.Prelude.{◌≡◌, ◌<◌, ◌≤◌, ◌++◌, ◌∷◌, [], ℕ, length, map, Some, None, IfOk, OnOk, IsErrOf, IsUtf8};
ghost use Rattle.json.specs.Json.{value, items, members, parse_map};
ghost use Rattle.serde_json.specs.Data.{no_members, array};
ghost use Rattle.serde_json.specs.Read.{of_json, of_items, of_members, converted, read as read_text};
ghost use Rattle.pipe_value.specs.Errors.{IsRefusal};
ghost use Rattle.pipe_value.specs.Read.{filled_data, array_after};
ghost use Rattle.pipe_value.specs.View.{view, members_view};
ghost use Rattle.pipe_value.specs.declared.error.ReadError.TheVariants as why;

use crate::columns::Columns;
use crate::error::ReadError;
use crate::number::number_in;
use crate::value::Value;
use json::{Reader, Scratch, Token};
use std::alloc::{AllocError, Global};
use std::collections::BTreeMap;

/// How deep arrays and objects may nest.
const MAX_DEPTH: usize = 127;

/// An array of more items is packed.
const SHORT: usize = 16;

impl Value {
    /// The value of a JSON text in UTF-8.
    pub fn from_slice(alloc: Global, bytes: &[u8]) -> Result<Value, ReadError>
        ensures ok { IfOk result (λ v. IsUtf8 bytes.now × (read_text bytes.now ≡ Some (view v))) }
        ensures bad_text { IsErrOf result why.BadText → IsUtf8 bytes.now
            → read_text bytes.now ≡ None }
    {
        match simdutf8::compat::from_utf8(bytes) {
            Ok(text) => read_all(alloc, text),
            Err(_) => Err(ReadError::BadText),
        }
    }
}

/// The value of a JSON text.
fn read_all(alloc: Global, text: &str) -> Result<Value, ReadError>
    ensures ok { IfOk result (λ v. read_text text.now ≡ Some (view v)) }
    ensures bad_text { IsRefusal result → read_text text.now ≡ None }
{
    let mut scratch = Scratch::new(alloc);
    let Ok(mut reader) = Reader::new(text, &mut scratch) else {
        return Err(ReadError::Memory);
    };
    let value = read(alloc, &mut reader, MAX_DEPTH)?;
    if reader.next().is_some() {
        return Err(ReadError::BadText);
    }
    Ok(value)
}

/// The next value, with arrays and objects nested no deeper than so.
#[cycle(read)]
#[inline(always)]
fn read(alloc: Global, reader: &mut Reader<'_>, depth: usize) -> Result<Value, ReadError>
    ensures ok { IfOk result
        (λ v. converted of_json (value depth reader.old) ≡ Some (view v, reader.new)) }
    ensures shorter { OnOk result (length reader.new < length reader.old) }
    ensures err { IsRefusal result → converted of_json (value depth reader.old) ≡ None }
{
    let token = reader.next().ok_or(ReadError::BadText)?;
    match token {
        Token::String(text) => Ok(Value::String(String::from_str(alloc, text)?)),
        Token::Number(text) => match number_in(text) {
            Some(number) => Ok(Value::Number(number)),
            None => Err(ReadError::BadText),
        },
        Token::Bool(b) => Ok(Value::Bool(b)),
        Token::Null => Ok(Value::Null),
        Token::EndObject | Token::EndArray | Token::Key(_) | Token::Bad => Err(ReadError::BadText),
        Token::BeginArray => {
            if depth == 0 {
                return Err(ReadError::BadText);
            }
            read_items(alloc, reader, depth - 1)
        }
        Token::BeginObject => {
            if depth == 0 {
                return Err(ReadError::BadText);
            }
            Ok(Value::Object(read_members(alloc, reader, depth - 1)?))
        }
    }
}

/// The items of an array up to its end.
#[cycle(read)]
#[inline(never)]
fn read_items(alloc: Global, reader: &mut Reader<'_>, depth: usize) -> Result<Value, ReadError>
    ensures ok { IfOk result
        (λ v. parse_map array (converted of_items
        (items (value depth) (length reader.old) reader.old)) ≡ Some (view v, reader.new)) }
    ensures shorter { OnOk result (length reader.new < length reader.old) }
    ensures err { IsRefusal result
        → converted of_items (items (value depth) (length reader.old) reader.old) ≡ None }
{
    let mut found = Vec::new(alloc);
    'items: while !reader.take_end_array() {
        if found.len() == SHORT {
            let filled = Filled::of(alloc, found)?;
            return read_more(alloc, reader, depth, filled);
        }
        let item = read(alloc, reader, depth)?;
        found.push(item)?;
    }
    Ok(Value::Array(found))
}

/// The further items of a long array up to its end.
#[cycle(read)]
#[inline(never)]
fn read_more(
    alloc: Global,
    reader: &mut Reader<'_>,
    depth: usize,
    found: Filled,
) -> Result<Value, ReadError>
    ensures ok { IfOk result (λ v. (n : ℕ) → length reader.old ≤ n
        → array_after (filled_data found) (converted of_items
        (items (value depth) n reader.old)) ≡ Some (view v, reader.new)) }
    ensures shorter { OnOk result (length reader.new < length reader.old) }
    ensures err { IsRefusal result → (n : ℕ) → length reader.old ≤ n
        → converted of_items (items (value depth) n reader.old) ≡ None }
{
    let mut found = found;
    'items: while !reader.take_end_array() {
        let item = read(alloc, reader, depth)?;
        found.push(item)?;
    }
    let Filled { columns, values } = found;
    let columns = Box::new(alloc, columns)?;
    Ok(Value::Packed(columns, values))
}

/// The members of an object up to its end.
#[cycle(read)]
#[inline(never)]
fn read_members(
    alloc: Global,
    reader: &mut Reader<'_>,
    depth: usize,
) -> Result<BTreeMap<String, Value>, ReadError>
    ensures ok { IfOk result
        (λ m. converted (λ ms. of_members ms no_members)
        (members (value depth) (length reader.old) reader.old)
        ≡ Some (members_view m.entries, reader.new)) }
    ensures shorter { OnOk result (length reader.new < length reader.old) }
    ensures err { IsRefusal result
        → converted (λ ms. of_members ms no_members)
        (members (value depth) (length reader.old) reader.old) ≡ None }
{
    let mut found = BTreeMap::new(alloc);
    'members: while let Some(name) = reader.next_key()? {
        let key = String::from_str(alloc, name)?;
        let member = read(alloc, reader, depth)?;
        drop(found.insert(key, member)?);
    }
    Ok(found)
}

/// The items of a long array so far: first the columns' items, then the values.
#[derive(Drop)]
struct Filled {
    columns: Columns,
    values: Vec<Value>,
}

impl Filled {
    /// These items, packed where they can be.
    fn of(alloc: Global, first: Vec<Value>) -> Result<Filled, AllocError>
        ensures { IfOk result (λ filled. filled_data filled ≡ map view first.items) }
    {
        let mut filled = Filled {
            columns: Columns::new(alloc),
            values: Vec::new(alloc),
        };
        for value in first {
            filled.push(value)?;
        }
        Ok(filled)
    }

    /// Puts an item at the end.
    #[inline(always)]
    fn push(&mut self, value: Value) -> Result<(), AllocError>
        ensures { OnOk result (filled_data self.new ≡ filled_data self.old ++ view value ∷ []) }
    {
        if self.values.is_empty() {
            if self.columns.push(&value)? {
                return Ok(());
            }
        }
        self.values.push(value)?;
        Ok(())
    }
}
