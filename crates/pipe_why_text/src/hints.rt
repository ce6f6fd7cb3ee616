//! What helps with a value that stands where another should.

use crate::expected::words_of;
use crate::literals::Literal;
use crate::near::nearest;
use crate::want::{Foreign, Want};
use crate::words::push_quoted;
use pipe_schema::DataType;
use std::alloc::{AllocError, Global};

/// What helps where a whole number is wanted.
fn number_hint(found: Literal<'_>) -> Option<&'static str> {
    if found.is_quoted_number() {
        return Some("a number stands without double quotes");
    }
    if found.is_fraction() {
        return Some("a whole number has no point and no exponent");
    }
    if found.bytes == b"-0".as_slice() {
        return Some("-0 isn't read as a whole number: write 0");
    }
    None
}

/// What helps where true or false is wanted.
fn truth_hint(found: Literal<'_>) -> Option<&'static str> {
    if found.is_text() || found.is_number() {
        return Some("write true or false, without double quotes");
    }
    None
}

/// What helps where bytes are wanted.
fn bytes_hint(found: Literal<'_>) -> Option<&'static str> {
    if !found.is_text() {
        return None;
    }
    let mut has_upper = false;
    for byte in found.inside() {
        has_upper = has_upper || (b'A' <= *byte && *byte <= b'F');
    }
    if has_upper {
        return Some("the digits a to f are written in lower case");
    }
    if found.inside().len() % 2 != 0 {
        return Some("each byte has two digits, and there is an odd number of them");
    }
    None
}

/// What helps where a number of 128 bits is wanted.
fn decimal_hint(found: Literal<'_>) -> Option<&'static str> {
    if found.is_number() {
        return Some("an Int128 value stands in double quotes");
    }
    if found.is_text() {
        return Some("there is no +, no zero before the first digit, and no -0");
    }
    None
}

/// What helps with a cell of a type.
fn cell_hint(dtype: DataType, found: Literal<'_>) -> Option<&'static str> {
    match dtype {
        DataType::Int32 | DataType::Int64 | DataType::UInt32 | DataType::UInt64 => {
            number_hint(found)
        }
        DataType::Boolean => truth_hint(found),
        DataType::String => text_hint(found),
        DataType::Binary => bytes_hint(found),
        DataType::Int128 => decimal_hint(found),
    }
}

/// What helps where a text is wanted.
fn text_hint(found: Literal<'_>) -> Option<&'static str> {
    if found.is_number() {
        return Some("a text stands in double quotes");
    }
    None
}

/// What helps where an expression is wanted.
fn expr_hint(found: Literal<'_>) -> Option<&'static str> {
    if found.is_text() {
        return Some("a column is written as {\"col\":\"k\"}");
    }
    if found.is_number() || found.first() == b't' || found.first() == b'f' {
        return Some(
            "a value is written with its type, as {\"lit\":{\"type\":\"Int64\",\"value\":1}}",
        );
    }
    None
}

/// What helps where a list is wanted.
fn list_hint(found: Literal<'_>) -> Option<&'static str> {
    if found.is_text() || found.first() == b't' || found.first() == b'f' || found.is_number() {
        return Some("it is a list also of one: put it in [ ]");
    }
    if found.first() == b'n' {
        return Some("an empty list is []");
    }
    None
}

/// What helps with a word that a join or a column may have elsewhere.
fn other_word(found: Literal<'_>) -> Option<&'static str> {
    let word = found.inside();
    if word.eq_ignore_ascii_case(b"outer") || word.eq_ignore_ascii_case(b"full_outer") {
        return Some("a full outer join is \"full\"");
    }
    if word.eq_ignore_ascii_case(b"right") {
        return Some("a right join is a left join with its inputs exchanged");
    }
    if word.eq_ignore_ascii_case(b"Utf8") || word.eq_ignore_ascii_case(b"str") {
        return Some("the type of texts is \"String\"");
    }
    if word.eq_ignore_ascii_case(b"int") || word.eq_ignore_ascii_case(b"integer") {
        return Some("the widest whole numbers of JSON are \"Int64\" and \"UInt64\"");
    }
    if word.eq_ignore_ascii_case(b"Float64") || word.eq_ignore_ascii_case(b"Float32") {
        return Some("there is no type of fractions");
    }
    None
}

/// What helps with a word of what an edit does.
fn edit_word(found: Literal<'_>) -> Option<&'static str> {
    let word = found.inside();
    if word.eq_ignore_ascii_case(b"add") || word.eq_ignore_ascii_case(b"put") {
        return Some("a row is put in by \"insert\"");
    }
    if word.eq_ignore_ascii_case(b"delete") || word.eq_ignore_ascii_case(b"take") {
        return Some("a row is taken out by \"remove\"");
    }
    if word.eq_ignore_ascii_case(b"update") || word.eq_ignore_ascii_case(b"replace") {
        return Some("a changed row is one \"remove\" and one \"insert\"");
    }
    None
}

/// What helps with a word that stands where other words may.
fn word_hint(want: Want, found: Literal<'_>) -> Option<&'static str> {
    match want {
        Want::Type | Want::Kind | Want::How | Want::Coalesce | Want::Expr => other_word(found),
        Want::Foreign(Foreign::Word) => edit_word(found),
        _ => None,
    }
}

/// What helps with a value that stands where another should, of what takes no words.
fn plain_hint(want: Want, found: Literal<'_>) -> Option<&'static str> {
    match want {
        Want::Version | Want::Whole32 | Want::Whole64 | Want::MaybeWhole64 | Want::Signed64 =>
            number_hint(found),
        Want::Truth => truth_hint(found),
        Want::Text => text_hint(found),
        Want::Cell(dtype) => cell_hint(dtype, found),
        Want::Expr => expr_hint(found),
        Want::Texts
        | Want::MaybeTexts
        | Want::Truths
        | Want::Numbers
        | Want::Exprs
        | Want::NamedExprs
        | Want::Pairs
        | Want::Columns
        | Want::Frames
        | Want::Nodes
        | Want::Foreign(Foreign::Edits)
        | Want::Foreign(Foreign::Row) => list_hint(found),
        _ => None,
    }
}

/// Appends a line that helps with a value that stands where another should, where there is one.
pub fn push_hint(
    alloc: Global,
    out: &mut String,
    want: Want,
    found: Literal<'_>,
) -> Result<(), AllocError> {
    let hint = match word_hint(want, found) {
        Some(hint) => Some(hint),
        None => plain_hint(want, found),
    };
    match hint {
        Some(hint) => {
            out.push_str("hint: ")?;
            out.push_str(hint)?;
            out.push_str("\n")
        }
        None => {
            let word = String::from_utf8_lossy(alloc, found.inside())?;
            push_nearest(alloc, out, word.as_str(), words_of(want))
        }
    }
}

/// Appends a line with the nearest of some words, where one is near.
pub fn push_nearest(
    alloc: Global,
    out: &mut String,
    word: &str,
    words: &[&str],
) -> Result<(), AllocError> {
    match nearest(alloc, word, words)? {
        Some(known) => {
            out.push_str("hint: the nearest is ")?;
            push_quoted(out, known)?;
            out.push_str("\n")
        }
        None => Ok(()),
    }
}
