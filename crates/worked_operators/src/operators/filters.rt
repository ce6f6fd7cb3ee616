//! Filters: a row whose predicate is null isn't kept.

use crate::operators::told::answer_lines;
use crate::operators::written::greater;
use pipe_expr::{NamedExpr, expr_type, to_physical};
use pipe_frame::DataChunk;
use pipe_ops::{FilterOperator, Operator, PExecutionContext};
use pipe_schema::{DataType, Text};
use std::alloc::{AllocError, Global};
use std::sync::Arc;
use worked_columns::{INT, frame_of};

/// The numbers of a run.
fn context() -> PExecutionContext {
    PExecutionContext {
        workers: 1,
        chunk_rows: 10,
        row_limit: 100,
    }
}

/// The most rows of a chunk.
const MOST: usize = 4_294_967_294;

/// What a filter gives for a chunk.
fn filtered(alloc: Global, expr: &NamedExpr, chunk: &DataChunk) -> Result<String, AllocError> {
    if chunk.frame.height() > MOST {
        return String::from_str(alloc, "too many rows\n");
    }
    let schema = chunk.frame.schema();
    match expr_type(&expr.expr, schema.fields()) {
        Some(DataType::Boolean) => {
            let predicate = to_physical(alloc, expr, schema)?;
            let mut filter = FilterOperator::new(Arc::new(alloc, predicate)?);
            let answer = filter.execute(alloc, &context(), &(), chunk)?;
            answer_lines(alloc, &answer)
        }
        _ => String::from_str(alloc, "no predicate\n"),
    }
}

/// Filter `k > 0` over k null, 1.
pub(crate) fn positive(alloc: Global) -> Result<String, AllocError> {
    let expr = NamedExpr {
        name: Text::from_str(alloc, "positive")?,
        expr: greater(alloc, "k", 0)?,
    };
    match frame_of(alloc, &[("k", INT, &["-", "1"])])? {
        Some(frame) => {
            let lines = filtered(alloc, &expr, &DataChunk::new(7, frame))?;
            format!(in alloc; "# k > 0\n{lines}")
        }
        None => String::from_str(alloc, "no frame\n"),
    }
}
