//! The lines of rows that stand for themselves, without a frame.

ghost use Rattle.std.specs.Prelude.{◌≡◌, ◌++◌, OnOk};
ghost use Rattle.serde_json.specs.Written.{compact_text};
ghost use Rattle.pipe_job.specs.Spelling.{cell_spelling};
ghost use Rattle.pipe_job.specs.Line.{row_line};

use crate::cell_texts::{
    push_binary, push_boolean, push_byte, push_comma, push_decimal, push_number, push_string,
};
use pipe_schema::AnyValue;
use std::alloc::AllocError;

/// Appends the text of a cell.
#[tactic(auto, using(crate::proofs::Texts::integer_text))]
fn push_value(out: &mut Vec<u8>, cell: &AnyValue) -> Result<(), AllocError>
    ensures { OnOk result (out.new.items ≡ out.old.items ++ compact_text (cell_spelling cell.now)) }
{
    match cell {
        AnyValue::Null => out.extend_from_slice(b"null"),
        AnyValue::Int32(x) => push_number(out, Some(*x)),
        AnyValue::Int64(x) => push_number(out, Some(*x)),
        AnyValue::UInt32(x) => push_number(out, Some(*x)),
        AnyValue::UInt64(x) => push_number(out, Some(*x)),
        AnyValue::Boolean(truth) => push_boolean(out, Some(*truth)),
        AnyValue::String(text) => push_string(out, Some(text.as_str())),
        AnyValue::Binary(bytes) => push_binary(out, Some(bytes.as_slice())),
        AnyValue::Int128(x) => push_decimal(out, Some(*x)),
    }
}

/// Appends the line of a row. After an error, a part of it may stand there.
pub fn push_row_line(out: &mut Vec<u8>, row: &[AnyValue]) -> Result<(), AllocError>
    ensures { OnOk result (out.new.items ≡ out.old.items ++ row_line row.now) }
{
    push_byte(out, b'[')?;
    let mut later = false;
    for cell in row {
        push_comma(out, later)?;
        push_value(out, cell)?;
        later = true;
    }
    push_byte(out, b']')?;
    push_byte(out, b'\n')
}
