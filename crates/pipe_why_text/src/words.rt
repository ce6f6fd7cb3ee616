//! Parts of sentences.

use pipe_schema::{DataType, Field, Text};
use std::alloc::AllocError;
use std::fmt::Write;

/// How many characters of a text or of a value are told.
const MOST_CHARS: usize = 60;

/// How many names of a list are told.
const MOST_NAMES: usize = 12;

/// Appends a character as it stands in a JSON text.
fn push_char(out: &mut String, ch: char) -> Result<(), AllocError> {
    match ch {
        '"' => out.push_str("\\\""),
        '\\' => out.push_str("\\\\"),
        '\n' => out.push_str("\\n"),
        '\r' => out.push_str("\\r"),
        '\t' => out.push_str("\\t"),
        _ => out.push(ch),
    }
}

/// Appends a text in double quotes, cut where it is long.
pub fn push_quoted(out: &mut String, text: &str) -> Result<(), AllocError> {
    out.push_str("\"")?;
    let mut left = MOST_CHARS;
    for ch in text.chars() {
        if left == 0 {
            return out.push_str("..\"");
        }
        left -= 1;
        push_char(out, ch)?;
    }
    out.push_str("\"")
}

/// Appends a name in double quotes.
pub fn push_name(out: &mut String, name: &Text) -> Result<(), AllocError> {
    push_quoted(out, name.as_str())
}

/// The word of a type.
pub fn type_word(dtype: DataType) -> &'static str {
    match dtype {
        DataType::Int32 => "Int32",
        DataType::Int64 => "Int64",
        DataType::UInt32 => "UInt32",
        DataType::UInt64 => "UInt64",
        DataType::Boolean => "Boolean",
        DataType::String => "String",
        DataType::Binary => "Binary",
        DataType::Int128 => "Int128",
    }
}

/// Appends a column's name and type.
pub fn push_field(out: &mut String, field: &Field) -> Result<(), AllocError> {
    push_name(out, &field.name)?;
    out.push_str(" ")?;
    out.push_str(type_word(field.dtype))
}

/// Appends columns with their types, cut where there are many.
pub fn push_fields(out: &mut String, fields: &[Field]) -> Result<(), AllocError> {
    let mut told = 0usize;
    for field in fields {
        if told == MOST_NAMES {
            let further = fields.len().saturating_sub(told);
            return write!(out, " and {further} more");
        }
        if told != 0 {
            out.push_str(", ")?;
        }
        push_field(out, field)?;
        told = told.saturating_add(1);
    }
    Ok(())
}

/// Appends words in double quotes, one after another.
pub fn push_words(out: &mut String, words: &[&str]) -> Result<(), AllocError> {
    let mut is_first = true;
    for word in words {
        if !is_first {
            out.push_str(", ")?;
        }
        is_first = false;
        push_quoted(out, word)?;
    }
    Ok(())
}

/// A count and the word for what is counted, which has an `s` where there isn't one alone.
pub fn push_count(out: &mut String, count: usize, word: &str) -> Result<(), AllocError> {
    if count == 1 {
        write!(out, "1 {word}")
    } else {
        write!(out, "{count} {word}s")
    }
}
