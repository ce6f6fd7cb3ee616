//! The items of a long array, packed into columns.

ghost use Rattle.std.specs.Prelude.{◌≡◌, ◌<◌, ◌∷◌, [], ◌++◌, IfOk, IfSome, OnOk, length, option_map};
ghost use Rattle.std.specs.Option.{option_copied};
ghost use Rattle.serde_json.specs.Data.{null, number as number_data};
ghost use Rattle.serde_json.specs.View.{number_view};
ghost use Rattle.pipe_column.specs.Column.{nullable_at};
ghost use Rattle.pipe_value.specs.Columns.{Puts, columns_data, integer_data, text_data, whole_data};
ghost use Rattle.pipe_value.specs.View.{view};
ghost use Rattle.pipe_value.specs.Items.{IsFound, IsFoundText, nullable_text};

use crate::value::Value;
use pipe_column::{Column, StringColumn};
use serde_json::Number;
use std::alloc::{AllocError, Global};

/// Nullable integers, then nullable wholes, then nullable texts.
#[derive(Drop)]
pub struct Columns {
    pub integers: Column<i64>,
    pub wholes: Column<u64>,
    pub texts: StringColumn,
}

impl Columns {
    pub(crate) fn new(alloc: Global) -> Columns
        ensures { columns_data result ≡ [] }
    {
        Columns {
            integers: Column::new(alloc),
            wholes: Column::new(alloc),
            texts: StringColumn::new(alloc),
        }
    }

    /// How many items there are, none where no number tells it.
    pub(crate) fn len(&self) -> Option<usize>
        ensures { IfSome result (λ n. n ≡ length (columns_data self.now)) }
    {
        self.integers
            .len()
            .checked_add(self.wholes.len())?
            .checked_add(self.texts.len())
    }

    /// Puts a nullable integer at the end, where the columns can take it.
    #[inline(always)]
    fn push_integer(&mut self, x: Option<i64>) -> Result<bool, AllocError>
        ensures { IfOk result
            (Puts (columns_data self.old) (integer_data x) (columns_data self.new)) }
    {
        if self.wholes.len() > 0 || self.texts.len() > 0 {
            return Ok(false);
        }
        self.integers.push_option(x, 0)?;
        Ok(true)
    }

    /// Puts a nullable whole number at the end, where the columns can take it.
    #[inline(always)]
    fn push_whole(&mut self, x: Option<u64>) -> Result<bool, AllocError>
        ensures { IfOk result
            (Puts (columns_data self.old) (whole_data x) (columns_data self.new)) }
    {
        if self.texts.len() > 0 {
            return Ok(false);
        }
        self.wholes.push_option(x, 0)?;
        Ok(true)
    }

    /// Puts a nullable text at the end.
    #[inline(always)]
    fn push_text(&mut self, text: Option<&str>) -> Result<(), AllocError>
        ensures { OnOk result (columns_data self.new
            ≡ columns_data self.old ++ text_data (option_copied text.entry) ∷ []) }
    {
        self.texts.push(text)
    }

    /// Puts a null at the end.
    #[inline(always)]
    fn push_null(&mut self) -> Result<bool, AllocError>
        ensures { IfOk result (Puts (columns_data self.old) null (columns_data self.new)) }
    {
        if self.texts.len() > 0 {
            self.push_text(None)?;
            return Ok(true);
        }
        if self.wholes.len() > 0 {
            self.push_whole(None)
        } else {
            self.push_integer(None)
        }
    }

    /// Puts a number at the end, where the columns can take it.
    #[inline(always)]
    fn push_number(&mut self, number: &Number) -> Result<bool, AllocError>
        ensures { IfOk result (Puts (columns_data self.old)
            (number_data (number_view number.now)) (columns_data self.new)) }
    {
        match (number.as_u64(), number.as_i64()) {
            (Some(_), Some(z)) if self.wholes.len() == 0 => self.push_integer(Some(z)),
            (Some(n), _) => self.push_whole(Some(n)),
            (None, Some(z)) if z < 0 => self.push_integer(Some(z)),
            _ => Ok(false),
        }
    }

    /// Puts a value at the end, where the columns can take it.
    #[inline(always)]
    pub(crate) fn push(&mut self, value: &Value) -> Result<bool, AllocError>
        ensures { IfOk result
            (Puts (columns_data self.old) (view value.now) (columns_data self.new)) }
    {
        match value {
            Value::Null => self.push_null(),
            Value::Number(number) => self.push_number(number),
            Value::String(text) => {
                self.push_text(Some(text.as_str()))?;
                Ok(true)
            }
            _ => Ok(false),
        }
    }

    /// The item at a place, or how far the place is behind the last item.
    pub(crate) fn item(&self, alloc: Global, i: usize) -> Result<Found, AllocError>
        ensures { IfOk result (IsFound (columns_data self.now) i) }
    {
        let integers = self.integers.len();
        if i < integers {
            return Ok(Found::Here(integer_at(&self.integers, i)));
        }
        let i = i - integers;
        let wholes = self.wholes.len();
        if i < wholes {
            return Ok(Found::Here(whole_at(&self.wholes, i)));
        }
        let i = i - wholes;
        let texts = self.texts.len();
        if i < texts {
            return Ok(Found::Here(text_at(alloc, &self.texts, i)?));
        }
        Ok(Found::Past(i - texts))
    }

    /// The text at a place, or none of null, where one of them is there, or how far the place is behind the last item.
    pub(crate) fn nullable_str(&self, i: usize) -> FoundText<'_>
        ensures { IsFoundText (columns_data self.now) i result }
    {
        let integers = self.integers.len();
        if i < integers {
            return FoundText::Here(null_at(&self.integers, i));
        }
        let i = i - integers;
        let wholes = self.wholes.len();
        if i < wholes {
            return FoundText::Here(null_among(&self.wholes, i));
        }
        let i = i - wholes;
        let texts = self.texts.len();
        if i < texts {
            return FoundText::Here(Some(self.texts.get(i)));
        }
        FoundText::Past(i - texts)
    }
}

/// An item, or how far its place is behind the last item.
#[derive(Drop)]
pub(crate) enum Found {
    Here(Value),
    Past(usize),
}

/// A text, or none of null, where one of them is at a place, or how far the place is behind the last item.
#[derive(Drop)]
pub(crate) enum FoundText<'a> {
    Here(Option<Option<&'a str>>),
    Past(usize),
}

/// Null, where it is at a place of a column of integers.
fn null_at(column: &Column<i64>, i: usize) -> Option<Option<&str>>
    requires { i < length column.now }
    ensures { option_map option_copied result
        ≡ nullable_text (integer_data (nullable_at column.now i)) }
{
    match column.get(i) {
        Some(_) => None,
        None => Some(None),
    }
}

/// Null, where it is at a place of a column of whole numbers.
fn null_among(column: &Column<u64>, i: usize) -> Option<Option<&str>>
    requires { i < length column.now }
    ensures { option_map option_copied result
        ≡ nullable_text (whole_data (nullable_at column.now i)) }
{
    match column.get(i) {
        Some(_) => None,
        None => Some(None),
    }
}

/// The value at a place of a column of integers.
fn integer_at(column: &Column<i64>, i: usize) -> Value
    requires { i < length column.now }
    ensures { view result ≡ integer_data (nullable_at column.now i) }
{
    match column.get(i) {
        Some(z) => Value::Number(Number::from(*z)),
        None => Value::Null,
    }
}

/// The value at a place of a column of whole numbers.
fn whole_at(column: &Column<u64>, i: usize) -> Value
    requires { i < length column.now }
    ensures { view result ≡ whole_data (nullable_at column.now i) }
{
    match column.get(i) {
        Some(n) => Value::Number(Number::from(*n)),
        None => Value::Null,
    }
}

/// The value at a place of a column of texts.
fn text_at(alloc: Global, column: &StringColumn, i: usize) -> Result<Value, AllocError>
    requires { i < length column.now }
    ensures { IfOk result (λ v. view v ≡ text_data (nullable_at column.now i)) }
{
    match column.get(i) {
        Some(text) => Ok(Value::String(String::from_str(alloc, text)?)),
        None => Ok(Value::Null),
    }
}
