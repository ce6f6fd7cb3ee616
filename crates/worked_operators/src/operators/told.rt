//! How answers are told: which kind it is, the chunk's index, and each column's cells.

use pipe_column::Series;
use pipe_frame::{DataChunk, DataFrame};
use pipe_ops::OperatorResult;
use pipe_schema::AnyValue;
use std::alloc::{AllocError, Global};

fn cell_text(alloc: Global, cell: &AnyValue) -> Result<String, AllocError> {
    match cell {
        AnyValue::Null => String::from_str(alloc, "-"),
        AnyValue::Int32(x) => format!(in alloc; "{x}"),
        AnyValue::Int64(x) => format!(in alloc; "{x}"),
        AnyValue::UInt32(x) => format!(in alloc; "{x}"),
        AnyValue::UInt64(x) => format!(in alloc; "{x}"),
        AnyValue::Int128(x) => format!(in alloc; "{x}"),
        AnyValue::Boolean(holds) => format!(in alloc; "{holds}"),
        AnyValue::String(x) => String::from_str(alloc, x.as_str()),
        AnyValue::Binary(_) => String::from_str(alloc, "bytes"),
    }
}

fn push_column(lines: &mut String, alloc: Global, column: &Series) -> Result<(), AllocError> {
    lines.push_str(column.name().as_str())?;
    lines.push_str(":")?;
    for i in 0..column.len() {
        lines.push_str(" ")?;
        let cell = column.get(i)?;
        lines.push_str(cell_text(alloc, &cell)?.as_str())?;
    }
    lines.push_str("\n")
}

fn push_frame(lines: &mut String, alloc: Global, frame: &DataFrame) -> Result<(), AllocError> {
    for column in frame.get_columns() {
        push_column(lines, alloc, column)?;
    }
    Ok(())
}

fn piece_lines(alloc: Global, kind: &str, piece: &DataChunk) -> Result<String, AllocError> {
    let index = piece.chunk_index;
    let mut lines = format!(in alloc; "{kind} {index}\n")?;
    push_frame(&mut lines, alloc, &piece.frame)?;
    Ok(lines)
}

/// The lines of an answer.
pub(crate) fn answer_lines(alloc: Global, answer: &OperatorResult) -> Result<String, AllocError> {
    match answer {
        OperatorResult::NeedsNewData => String::from_str(alloc, "needs new data\n"),
        OperatorResult::HaveMoreOutPut(piece) => piece_lines(alloc, "more of", piece),
        OperatorResult::Finished(piece) => piece_lines(alloc, "finished", piece),
    }
}
