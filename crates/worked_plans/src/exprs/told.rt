//! How answers are told: a column by its name, its type and its cells.

use pipe_column::Series;
use pipe_expr::{ExprError, NamedExpr, PhysicalPipedExpr, expr_type, to_physical, type_of};
use pipe_frame::DataChunk;
use pipe_schema::{AnyValue, DataType, Field, Schema};
use std::alloc::{AllocError, Global};

pub(crate) fn dtype_text(dtype: DataType) -> &'static str {
    match dtype {
        DataType::Int32 => "Int32",
        DataType::Int64 => "Int64",
        DataType::UInt32 => "UInt32",
        DataType::UInt64 => "UInt64",
        DataType::Boolean => "Boolean",
        DataType::String => "String",
        DataType::Binary => "Binary",
        DataType::Int128 => "Int128",
    }
}

fn push_cell(line: &mut String, alloc: Global, cell: &AnyValue) -> Result<(), AllocError> {
    match cell {
        AnyValue::Null => line.push_str("-"),
        AnyValue::Int32(x) => line.push_str(format!(in alloc; "{x}")?.as_str()),
        AnyValue::Int64(x) => line.push_str(format!(in alloc; "{x}")?.as_str()),
        AnyValue::UInt32(x) => line.push_str(format!(in alloc; "{x}")?.as_str()),
        AnyValue::UInt64(x) => line.push_str(format!(in alloc; "{x}")?.as_str()),
        AnyValue::Int128(x) => line.push_str(format!(in alloc; "{x}")?.as_str()),
        AnyValue::Boolean(holds) => line.push_str(if *holds { "t" } else { "f" }),
        AnyValue::String(x) => line.push_str(x.as_str()),
        AnyValue::Binary(x) => line.push_str(str::from_utf8(x.as_slice()).unwrap_or("?")),
    }
}

/// The line of a column: the name and the type of a field, and the cells of a series.
pub(crate) fn column_line(
    alloc: Global,
    field: &Field,
    series: &Series,
) -> Result<String, AllocError> {
    let mut line = String::from_str(alloc, field.name.as_str())?;
    line.push_str(" ")?;
    line.push_str(dtype_text(field.dtype))?;
    for i in 0..series.len() {
        line.push_str(" ")?;
        push_cell(&mut line, alloc, &series.get(i)?)?;
    }
    line.push_str("\n")?;
    Ok(line)
}

/// The type of an expression, or why it has none.
pub(crate) fn type_text(
    alloc: Global,
    expr: &NamedExpr,
    schema: &Schema,
) -> Result<String, AllocError> {
    match type_of(alloc, &expr.expr, schema) {
        Ok(dtype) => String::from_str(alloc, dtype_text(dtype)),
        Err(ExprError::UnknownColumn(name)) => {
            format!(in alloc; "UnknownColumn {}", name.as_str())
        }
        Err(ExprError::TypeMismatch) => String::from_str(alloc, "TypeMismatch"),
        Err(ExprError::Memory) => Err(AllocError),
    }
}

/// The line of the column of an expression over a chunk, or why it has no type.
pub(crate) fn expr_line(
    alloc: Global,
    expr: &NamedExpr,
    chunk: &DataChunk,
) -> Result<String, AllocError> {
    let schema = chunk.frame.schema();
    match expr_type(&expr.expr, schema.fields()) {
        Some(_) => {
            let made = to_physical(alloc, expr, schema)?;
            let field = made.field(alloc, schema)?;
            column_line(alloc, &field, &made.evaluate(alloc, chunk)?)
        }
        None => {
            let told = type_text(alloc, expr, schema)?;
            format!(in alloc; "{} {told}\n", expr.name.as_str())
        }
    }
}
