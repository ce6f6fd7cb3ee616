//! Columns as values: their cells are packed, but for truth values.

ghost use Rattle.std.specs.Prelude.{◌≡◌, ◌∷◌, ◌++◌, [], map, option_map, IfOk, OnOk, ⊤};
ghost use Rattle.std.specs.Fmt.{signed_decimal};
ghost use Rattle.std.specs.Option.{option_copied};
ghost use Rattle.hex.specs.Hex.{encode_lower};
ghost use Rattle.serde_json.specs.Data.{boolean};
ghost use Rattle.pipe_value.specs.View.{view};
ghost use Rattle.pipe_job.specs.FrameSpelling.{column_spelling};
ghost use Rattle.pipe_job.specs.Spelling.{cell_spelling, list, maybe};

use crate::cells::type_name;
use crate::object::Object;
use crate::packed::{integers_value, texts_value, wholes_value};
use crate::spell::Spell;
use itoa::Buffer;
use pipe_column::{BinaryColumn, Column, Series, StringColumn};
use pipe_value::Value;
use std::alloc::{AllocError, Global};

/// A copy of a column. The filler stands at the place of a null.
fn copied<T: Copy + Drop>(
    alloc: Global,
    column: &Column<T>,
    filler: T,
) -> Result<Column<T>, AllocError>
    ensures { IfOk result (λ copy. copy ≡ column.now) }
{
    let mut copy = Column::with_capacity(alloc, column.len())?;
    for i in 0..column.len() {
        copy.push_option(column.at(i), filler)?;
    }
    Ok(copy)
}

/// A copy of a column of texts.
fn copied_texts(alloc: Global, column: &StringColumn) -> Result<StringColumn, AllocError>
    ensures { IfOk result (λ copy. copy ≡ column.now) }
{
    let mut copy = StringColumn::with_capacity(alloc, column.len())?;
    for i in 0..column.len() {
        copy.push(column.get(i))?;
    }
    Ok(copy)
}

/// The same integers, each of 64 bits.
fn widened(alloc: Global, column: &Column<i32>) -> Result<Column<i64>, AllocError>
    ensures { IfOk result (λ wide. wide ≡ column.now) }
{
    let mut wide = Column::with_capacity(alloc, column.len())?;
    for i in 0..column.len() {
        match column.at(i) {
            Some(x) => wide.push(x as i64)?,
            None => wide.push_null(0)?,
        }
    }
    Ok(wide)
}

/// The same whole numbers, each of 64 bits.
fn widened_wholes(alloc: Global, column: &Column<u32>) -> Result<Column<u64>, AllocError>
    ensures { IfOk result (λ wide. wide ≡ column.now) }
{
    let mut wide = Column::with_capacity(alloc, column.len())?;
    for i in 0..column.len() {
        match column.at(i) {
            Some(x) => wide.push(x as u64)?,
            None => wide.push_null(0)?,
        }
    }
    Ok(wide)
}

/// The array of some truth values, each of which may be missing.
fn truths_value(alloc: Global, column: &Column<bool>) -> Result<Value, AllocError>
    ensures { IfOk result (λ value. view value ≡ list (maybe boolean) column.now) }
{
    let mut values = Vec::with_capacity(alloc, column.len())?;
    for i in 0..column.len() {
        let value = column.at(i).spell(alloc)?;
        values.push(value)?;
    }
    Ok(Value::Array(values))
}

/// The decimal texts of some numbers of 128 bits.
fn decimals(alloc: Global, column: &Column<i128>) -> Result<StringColumn, AllocError>
    ensures { IfOk result (λ texts. texts ≡ map (option_map signed_decimal) column.now) }
{
    let mut texts = StringColumn::with_capacity(alloc, column.len())?;
    for i in 0..column.len() {
        match column.at(i) {
            Some(x) => {
                let mut buffer = Buffer::new();
                texts.push(Some(buffer.format(x)))?;
            }
            None => texts.push(None)?,
        }
    }
    Ok(texts)
}

/// Puts the hexadecimal text of bytes that may be missing at the end of a column.
fn push_hex(texts: &mut StringColumn, alloc: Global, bytes: Option<&[u8]>) -> Result<(), AllocError>
    ensures { OnOk result (texts.new
        ≡ texts.old ++ option_map encode_lower (option_copied bytes.entry) ∷ []) }
{
    match bytes {
        Some(bytes) => {
            let text = hex::encode(alloc, bytes)?;
            texts.push(Some(text.as_str()))
        }
        None => texts.push(None),
    }
}

/// The hexadecimal texts of some byte strings.
fn hexes(alloc: Global, column: &BinaryColumn) -> Result<StringColumn, AllocError>
    ensures { IfOk result (λ texts. texts ≡ map (option_map encode_lower) column.now) }
{
    let mut texts = StringColumn::with_capacity(alloc, column.len())?;
    for i in 0..column.len() {
        push_hex(&mut texts, alloc, column.get(i))?;
    }
    Ok(texts)
}

/// The array of a column's cells.
#[tactic(auto, using(crate::proofs::Packing::column_rules))]
fn values_value(alloc: Global, series: &Series) -> Result<Value, AllocError>
    ensures { IfOk result (λ value. view value ≡ list cell_spelling series.now.cells) }
{
    if let Some(column) = series.as_column::<i32>() {
        return integers_value(alloc, widened(alloc, column)?);
    }
    if let Some(column) = series.as_column::<i64>() {
        return integers_value(alloc, copied(alloc, column, 0)?);
    }
    if let Some(column) = series.as_column::<u32>() {
        return wholes_value(alloc, widened_wholes(alloc, column)?);
    }
    if let Some(column) = series.as_column::<u64>() {
        return wholes_value(alloc, copied(alloc, column, 0)?);
    }
    if let Some(column) = series.as_column::<bool>() {
        return truths_value(alloc, column);
    }
    if let Some(column) = series.as_string() {
        return texts_value(alloc, copied_texts(alloc, column)?);
    }
    if let Some(column) = series.as_binary() {
        return texts_value(alloc, hexes(alloc, column)?);
    }
    match series.as_column::<i128>() {
        Some(column) => texts_value(alloc, decimals(alloc, column)?),
        None => unreachable!(),
    }
}

impl Spell for Series {
    ghost spelling = { column_spelling };

    ghost fits = { λ _. ⊤ };

    fn spell(&self, alloc: Global) -> Result<Value, AllocError> {
        let mut object = Object::new(alloc);
        let values = values_value(alloc, self)?;
        object.put(alloc, "values", values)?;
        object.word(alloc, "type", type_name(self.dtype()))?;
        object.field(alloc, "name", self.name())?;
        Ok(object.into_value())
    }
}
