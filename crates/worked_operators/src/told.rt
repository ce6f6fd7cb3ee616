//! How answers are told on one line: which kind it is, the names of the columns, and the rows.

ghost use Rattle.std.specs.Prelude.{◌≡◌, IfOk};
ghost use Rattle.pipe_ops.specs.Pieces.{is_more};

use pipe_frame::{DataFrame, Row};
use pipe_ops::OperatorResult;
use pipe_schema::AnyValue;
use std::alloc::{AllocError, Global};

fn cell_text(alloc: Global, cell: &AnyValue) -> Result<String, AllocError> {
    match cell {
        AnyValue::Null => String::from_str(alloc, "-"),
        AnyValue::Int64(x) => format!(in alloc; "{x}"),
        AnyValue::String(x) => String::from_str(alloc, x.as_str()),
        _ => String::from_str(alloc, "of another type"),
    }
}

fn push_row(line: &mut String, alloc: Global, row: &Row) -> Result<(), AllocError> {
    let mut before = " (";
    for cell in row.as_slice() {
        line.push_str(before)?;
        line.push_str(cell_text(alloc, cell)?.as_str())?;
        before = " ";
    }
    line.push_str(")")
}

fn push_names(line: &mut String, frame: &DataFrame) -> Result<(), AllocError> {
    let mut before = " [";
    for field in frame.schema().fields() {
        line.push_str(before)?;
        line.push_str(field.name.as_str())?;
        before = " ";
    }
    line.push_str("]")
}

fn push_frame(line: &mut String, alloc: Global, frame: &DataFrame) -> Result<(), AllocError> {
    push_names(line, frame)?;
    for i in 0..frame.height() {
        let row = frame.row(i)?;
        push_row(line, alloc, &row)?;
    }
    Ok(())
}

/// The kind of an answer, the names of its columns and its rows.
pub(crate) fn answer_text(alloc: Global, answer: &OperatorResult) -> Result<String, AllocError> {
    let mut line = String::new(alloc);
    match answer {
        OperatorResult::NeedsNewData => line.push_str("needs new data")?,
        OperatorResult::HaveMoreOutPut(piece) => {
            line.push_str("more")?;
            push_frame(&mut line, alloc, &piece.frame)?;
        }
        OperatorResult::Finished(piece) => {
            line.push_str("finished")?;
            push_frame(&mut line, alloc, &piece.frame)?;
        }
    }
    Ok(line)
}

/// Puts an answer behind those of a line; whether more is to come.
pub(crate) fn put_answer(
    line: &mut String,
    alloc: Global,
    answer: &OperatorResult,
) -> Result<bool, AllocError>
    ensures { IfOk result (λ more. more ≡ is_more answer.now) }
{
    line.push_str(answer_text(alloc, answer)?.as_str())?;
    match answer {
        OperatorResult::HaveMoreOutPut(_) => {
            line.push_str("; ")?;
            Ok(true)
        }
        _ => Ok(false),
    }
}
