//! Columns in JSON: one pass over an array makes a typed column.

ghost use Rattle.std.specs.Prelude.{◌≡◌, ◌<◌, [], ◌∷◌, ◌++◌, OnOk, length, slice_index_or};
ghost use Rattle.std.specs.List.{AllByRecursion};
ghost use Rattle.std.specs.Option.{option_copied};
ghost use Rattle.serde_json.specs.Data.{null, string};
ghost use Rattle.pipe_value.specs.Items.{elements};
ghost use Rattle.pipe_value.specs.View.{view};
ghost use Rattle.hex.specs.Hex.{IsBytes, encode_lower};
ghost use Rattle.pipe_schema.specs.declared.data_type.DataType.TheVariants as dtype;
ghost use Rattle.pipe_job.specs.Reads.{ReadWhere};
ghost use Rattle.pipe_job.specs.Shape.{is_list, is_maybe, is_text, is_hex, is_column};
ghost use Rattle.pipe_job.specs.Spelling.{list, maybe, MaybeFits, hex_spelling};
ghost use Rattle.pipe_job.specs.FrameSpelling.{column_spelling, ColumnFits, ReadsColumn};

use crate::lists::{count_of, item_at};
use crate::members::Members;
use crate::misread::Misread;
use crate::spelled::Spelled;
use crate::spelled_cell::SpelledCell;
use pipe_column::{BinaryColumn, Column, Series, StringColumn};
use pipe_schema::{Bytes, DataType, Text};
use pipe_value::Value;
use std::alloc::{AllocError, Global};

/// The nullable value that the item of an array at a place spells.
fn nullable_at<T: Spelled>(alloc: Global, value: &Value, i: usize) -> Result<Option<T>, Misread>
    requires { i < length (elements (view value.now)) }
    ensures { ReadWhere (is_maybe T.shape (slice_index_or (elements (view value.now)) i null))
        (λ x. (slice_index_or (elements (view value.now)) i null ≡ maybe T.spelling x)
        × MaybeFits T.fits x) result }
{
    item_at::<Option<T>>(alloc, value, i)
}

/// The column that a value spells, whose cells are plain values. The filler stands at the place of a null.
#[tactic(auto, using(crate::proofs::SoFar::list_rules))]
fn values_of<T: Spelled + Copy>(
    alloc: Global,
    value: &Value,
    filler: T,
) -> Result<Column<T>, Misread>
    ensures { ReadWhere (is_list (is_maybe T.shape) (view value.now))
        (λ column. (view value.now ≡ list (maybe T.spelling) column)
        × AllByRecursion (MaybeFits T.fits) column) result }
{
    let count = count_of(value)?;
    let mut column = Column::with_capacity(alloc, count)?;
    for i in 0..count {
        let x = nullable_at::<T>(alloc, value, i)?;
        column.push_option(x, filler)?;
    }
    Ok(column)
}

/// The nullable text that the item of an array at a place spells.
#[tactic(auto, using(crate::proofs::TextItems::text_item_rules))]
fn text_at(value: &Value, i: usize) -> Result<Option<&str>, Misread>
    requires { i < length (elements (view value.now)) }
    ensures { ReadWhere (is_maybe is_text (slice_index_or (elements (view value.now)) i null))
        (λ text. slice_index_or (elements (view value.now)) i null
        ≡ maybe string (option_copied text)) result }
{
    match value.item_as_nullable_str(i) {
        Some(text) => Ok(text),
        None => Err(Misread::Other),
    }
}

/// The column of texts that a value spells.
#[tactic(auto, using(crate::proofs::SoFar::list_rules, crate::proofs::TextItems::one_more_text))]
fn texts_of(alloc: Global, value: &Value) -> Result<StringColumn, Misread>
    ensures { ReadWhere (is_list (is_maybe is_text) (view value.now))
        (λ column. view value.now ≡ list (maybe string) column) result }
{
    let count = count_of(value)?;
    let mut column = StringColumn::with_capacity(alloc, count)?;
    for i in 0..count {
        let text = text_at(value, i)?;
        column.push(text)?;
    }
    Ok(column)
}

/// Puts nullable bytes at the end of a column.
fn push_bytes(column: &mut BinaryColumn, bytes: &Option<Bytes>) -> Result<(), AllocError>
    ensures { OnOk result (column.new ≡ column.old ++ bytes.now ∷ []) }
{
    match bytes {
        Some(bytes) => column.push(Some(bytes.as_slice())),
        None => column.push(None),
    }
}

/// The column of byte strings that a value spells.
#[tactic(auto, using(crate::proofs::SoFar::list_rules))]
fn bytes_of(alloc: Global, value: &Value) -> Result<BinaryColumn, Misread>
    ensures { ReadWhere (is_list (is_maybe is_hex) (view value.now))
        (λ column. (view value.now ≡ list (maybe hex_spelling) column)
        × AllByRecursion (MaybeFits IsBytes) column) result }
{
    let count = count_of(value)?;
    let mut column = BinaryColumn::new(alloc);
    for i in 0..count {
        let bytes = nullable_at::<Bytes>(alloc, value, i)?;
        push_bytes(&mut column, &bytes)?;
    }
    Ok(column)
}

/// The column of a name whose cells a value spells, of a type of fixed width.
fn native_of<T: SpelledCell>(
    alloc: Global,
    name: Text,
    value: &Value,
    filler: T,
) -> Result<Series, Misread>
    ensures { ReadsColumn name T.dtype_of (view value.now) result }
{
    let column = values_of::<T>(alloc, value, filler)?;
    Ok(Series::from_column(name, column))
}

/// The column of a name and a type whose cells a value spells.
fn series_of(alloc: Global, name: Text, dtype: DataType, value: &Value) -> Result<Series, Misread>
    ensures { ReadsColumn name dtype (view value.now) result }
{
    match dtype {
        DataType::Int32 => native_of::<i32>(alloc, name, value, 0),
        DataType::Int64 => native_of::<i64>(alloc, name, value, 0),
        DataType::UInt32 => native_of::<u32>(alloc, name, value, 0),
        DataType::UInt64 => native_of::<u64>(alloc, name, value, 0),
        DataType::Boolean => native_of::<bool>(alloc, name, value, false),
        DataType::String => Ok(Series::from_string(name, texts_of(alloc, value)?)),
        DataType::Binary => Ok(Series::from_binary(name, bytes_of(alloc, value)?)),
        DataType::Int128 => native_of::<i128>(alloc, name, value, 0),
    }
}

impl Spelled for Series {
    ghost spelling = { column_spelling };

    ghost fits = { ColumnFits };

    ghost shape = { is_column };

    fn read(alloc: Global, value: &Value) -> Result<Series, Misread> {
        let mut members = Members::of(value)?;
        let name = members.field::<Text>(alloc, "name")?;
        let dtype = members.field::<DataType>(alloc, "type")?;
        let values = members.take("values")?;
        let series = series_of(alloc, name, dtype, values)?;
        members.end()?;
        Ok(series)
    }
}
