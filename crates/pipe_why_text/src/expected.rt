//! What may stand at a place, in words.

use crate::want::{COALESCES, EDITS, FORMS, Foreign, HOWS, KINDS, SIDES, TYPES, Want};
use crate::words::push_words;
use pipe_schema::DataType;
use std::alloc::AllocError;

/// What a value of a type may be.
fn cell_words(dtype: DataType) -> &'static str {
    match dtype {
        DataType::Int32 => "a whole number from -2147483648 to 2147483647",
        DataType::Int64 => "a whole number from -9223372036854775808 to 9223372036854775807",
        DataType::UInt32 => "a whole number from 0 to 4294967295",
        DataType::UInt64 => "a whole number from 0 to 18446744073709551615",
        DataType::Boolean => "true or false",
        DataType::String => "a text in double quotes",
        DataType::Binary => {
            "bytes as a text of lower-case hexadecimal digits of even length, as \"00ff\""
        }
        DataType::Int128 => {
            "a whole number in double quotes from \"-170141183460469231731687303715884105728\" to \"170141183460469231731687303715884105727\""
        }
    }
}

/// Appends one of some words.
fn push_one_of(out: &mut String, words: &[&str]) -> Result<(), AllocError> {
    out.push_str("one of ")?;
    push_words(out, words)
}

/// What a part may be that isn't one of some words.
fn part_words(want: Want) -> &'static str {
    match want {
        Want::Job => "a job, which is one object: { .. }",
        Want::Version => "1 or 2",
        Want::Whole32 => "a whole number from 0 to 4294967295",
        Want::Whole64 => "a whole number from 0 to 18446744073709551615",
        Want::MaybeWhole64 => "null or a whole number from 0 to 18446744073709551615",
        Want::Signed64 => "a whole number from -9223372036854775808 to 9223372036854775807",
        Want::Truth => "true or false",
        Want::Text => "a text in double quotes",
        Want::Frames => "an array of frames, as [{\"columns\":[..]}]",
        Want::Frame =>
            "a frame of one or more columns with distinct names and equal lengths, as {\"columns\":[..]}",
        Want::Columns =>
            "an array of columns, as [{\"name\":\"k\",\"type\":\"Int64\",\"values\":[1,2]}]",
        Want::Column => "a column, as {\"name\":\"k\",\"type\":\"Int64\",\"values\":[1,2]}",
        Want::Cells(_) => "an array of values and nulls, one a row",
        Want::Nodes =>
            "an array of nodes, as [{\"node\":\"DataFrameScan\",\"frame\":0,\"columns\":null}]",
        Want::Node => "a node, as {\"node\":\"DataFrameScan\",\"frame\":0,\"columns\":null}",
        Want::Hint => "an array of a known number of rows or null and an estimate, as [null,0]",
        Want::Slice =>
            "null, or an array of how many rows are skipped and how many are kept, as [0,10]",
        Want::Texts => "an array of texts, as [\"a\",\"b\"]",
        Want::MaybeTexts => "null for all columns, or an array of names, as [\"a\",\"b\"]",
        Want::Truths => "an array of true and false, as [false]",
        Want::Numbers => "an array of numbers of nodes, as [0,1]",
        Want::Expr =>
            "an expression: an object of one member, as {\"col\":\"k\"} or {\"lit\":{\"type\":\"Int64\",\"value\":1}}",
        Want::Sides => "an array of two expressions, as [{\"col\":\"a\"},{\"col\":\"b\"}]",
        Want::Literal => "a type and a value, as {\"type\":\"Int64\",\"value\":1}",
        Want::Exprs => "an array of expressions, as [{\"col\":\"k\"}]",
        Want::NamedExpr => "a name and an expression, as {\"name\":\"a\",\"expr\":{\"col\":\"k\"}}",
        Want::NamedExprs =>
            "an array of names and expressions, as [{\"name\":\"a\",\"expr\":{\"col\":\"k\"}}]",
        Want::Pair => "an old name and a new one, as {\"existing\":\"a\",\"new\":\"b\"}",
        Want::Pairs => "an array of old and new names, as [{\"existing\":\"a\",\"new\":\"b\"}]",
        Want::Foreign(foreign) => foreign_words(foreign),
        Want::Type | Want::Cell(_) | Want::Kind | Want::How | Want::Coalesce => "",
    }
}

/// What a part of what another command reads may be that isn't one of some words.
fn foreign_words(foreign: Foreign) -> &'static str {
    match foreign {
        Foreign::Reconciliation => "two tables and a key, which are one object: { .. }",
        Foreign::Replay => "two tables, their join and edits, which are one object: { .. }",
        Foreign::TwoFrames =>
            "an array of two frames, the left and the right table, as [{\"columns\":[..]},{\"columns\":[..]}]",
        Foreign::KeptJoin => "a Join node over the left table, 0, and the right one, 1",
        Foreign::JoinWord => "\"Join\"",
        Foreign::LeftTable => "0, the left table",
        Foreign::RightTable => "1, the right table",
        Foreign::Edits => "an array of edits, as [[\"left\",\"insert\",[1,null]]]",
        Foreign::Edit => "an array of a side, a word and a row, as [\"left\",\"insert\",[1,null]]",
        Foreign::Row => "an array of values and nulls, one for each column of the table",
        Foreign::Side | Foreign::Word => "",
    }
}

/// Appends what may stand at a place.
pub fn push_expected(out: &mut String, want: Want) -> Result<(), AllocError> {
    match want {
        Want::Type => push_one_of(out, TYPES),
        Want::Kind => push_one_of(out, KINDS),
        Want::How => push_one_of(out, HOWS),
        Want::Coalesce => push_one_of(out, COALESCES),
        Want::Foreign(Foreign::Side) => push_one_of(out, SIDES),
        Want::Foreign(Foreign::Word) => push_one_of(out, EDITS),
        Want::Cell(dtype) => {
            out.push_str("null or ")?;
            out.push_str(cell_words(dtype))
        }
        _ => out.push_str(part_words(want)),
    }
}

/// The words that may stand at a place, none where it takes no word.
pub(crate) fn words_of(want: Want) -> &'static [&'static str] {
    match want {
        Want::Type => TYPES,
        Want::Kind => KINDS,
        Want::How => HOWS,
        Want::Coalesce => COALESCES,
        Want::Foreign(Foreign::Side) => SIDES,
        Want::Foreign(Foreign::Word) => EDITS,
        Want::Expr => FORMS,
        _ => &[],
    }
}
