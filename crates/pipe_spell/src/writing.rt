//! Values, written token by token.

ghost use Rattle.std.specs.Prelude.{◌≡◌, ◌++◌, map, OnOk};
ghost use Rattle.json.specs.Print.{ArePrintable};
ghost use Rattle.serde_json.specs.Written.{WritesItems, WritesMembers, WritesValue};
ghost use Rattle.pipe_value.specs.Columns.{columns_data, integer_data, text_data, whole_data};
ghost use Rattle.pipe_value.specs.View.{items_view, members_view, view};
ghost use Rattle.pipe_spell.specs.Written.{WritesFront};

use crate::numbers::{write_integer, write_null, write_number, write_str, write_text, write_whole};
use json::Writer;
use pipe_column::{Column, StringColumn};
use pipe_value::{Columns, Value};
use std::alloc::AllocError;
use std::collections::BTreeMap;

/// Writes the items of a column of integers.
#[tactic(auto, using(crate::proofs::Fronts::column_written))]
fn write_integers(out: &mut Writer, column: &Column<i64>) -> Result<(), AllocError>
    ensures ok { OnOk result
        (WritesFront (map integer_data column.now) out.old.tokens out.new.tokens) }
    ensures printable { OnOk result
        (ArePrintable out.old.tokens → ArePrintable out.new.tokens) }
    ensures before { out.new.before ≡ out.old.before }
{
    for i in 0..column.len() {
        write_integer(out, column.at(i))?;
    }
    Ok(())
}

/// Writes the items of a column of whole numbers.
#[tactic(auto, using(crate::proofs::Fronts::column_written))]
fn write_wholes(out: &mut Writer, column: &Column<u64>) -> Result<(), AllocError>
    ensures ok { OnOk result
        (WritesFront (map whole_data column.now) out.old.tokens out.new.tokens) }
    ensures printable { OnOk result
        (ArePrintable out.old.tokens → ArePrintable out.new.tokens) }
    ensures before { out.new.before ≡ out.old.before }
{
    for i in 0..column.len() {
        write_whole(out, column.at(i))?;
    }
    Ok(())
}

/// Writes the items of a column of texts.
#[tactic(auto, using(crate::proofs::Fronts::column_written))]
fn write_texts(out: &mut Writer, column: &StringColumn) -> Result<(), AllocError>
    ensures ok { OnOk result
        (WritesFront (map text_data column.now) out.old.tokens out.new.tokens) }
    ensures printable { OnOk result
        (ArePrintable out.old.tokens → ArePrintable out.new.tokens) }
    ensures before { out.new.before ≡ out.old.before }
{
    for i in 0..column.len() {
        write_text(out, column.get(i))?;
    }
    Ok(())
}

/// Writes the items of packed columns.
fn write_columns(out: &mut Writer, columns: &Columns) -> Result<(), AllocError>
    ensures ok { OnOk result
        (WritesFront (columns_data columns.now) out.old.tokens out.new.tokens) }
    ensures printable { OnOk result
        (ArePrintable out.old.tokens → ArePrintable out.new.tokens) }
    ensures before { out.new.before ≡ out.old.before }
{
    write_integers(out, &columns.integers)?;
    write_wholes(out, &columns.wholes)?;
    write_texts(out, &columns.texts)
}

/// Writes a value.
#[cycle(write)]
pub(crate) fn write(value: &Value, out: &mut Writer) -> Result<(), AllocError>
    ensures ok { OnOk result (WritesValue (view value.now) out.old.tokens out.new.tokens) }
    ensures printable { OnOk result
        (ArePrintable out.old.tokens → ArePrintable out.new.tokens) }
    ensures before { out.new.before ≡ out.old.before }
{
    match value {
        Value::Null => write_null(out),
        Value::Bool(truth) => out.boolean(*truth),
        Value::Number(number) => write_number(out, *number),
        Value::String(text) => write_str(out, text.as_str()),
        Value::Array(items) => {
            out.begin_array()?;
            write_items(items, out)
        }
        Value::Packed(columns, items) => {
            out.begin_array()?;
            write_columns(out, columns)?;
            write_items(items, out)
        }
        Value::Object(members) => {
            out.begin_object()?;
            write_members(members, out)
        }
    }
}

/// Writes the items of an array, and its end.
#[cycle(write)]
fn write_items(items: &Vec<Value>, out: &mut Writer) -> Result<(), AllocError>
    ensures ok { OnOk result
        (WritesItems (items_view items.now.items) out.old.tokens out.new.tokens) }
    ensures printable { OnOk result
        (ArePrintable out.old.tokens → ArePrintable out.new.tokens) }
    ensures before { out.new.before ≡ out.old.before }
{
    for item in items {
        write(item, out)?;
    }
    out.end_array()
}

/// Writes the members of an object, and its end.
#[cycle(write)]
fn write_members(members: &BTreeMap<String, Value>, out: &mut Writer) -> Result<(), AllocError>
    ensures ok { OnOk result
        (WritesMembers (members_view members.now.entries) out.old.tokens out.new.tokens) }
    ensures printable { OnOk result
        (ArePrintable out.old.tokens → ArePrintable out.new.tokens) }
    ensures before { out.new.before ≡ out.old.before }
{
    for (key, member) in members.iter() {
        out.key(key.as_str())?;
        write(member, out)?;
    }
    out.end_object()
}
