//! Nodes as texts.

use pipe_expr::{Expr, FunctionIR, NamedExpr};
use pipe_plan::IR;
use pipe_schema::{AnyValue, List, Text};
use std::alloc::{AllocError, Global};

/// Two texts with an operator between them.
fn between(
    alloc: Global,
    left: String,
    operator: &str,
    right: String,
) -> Result<String, AllocError> {
    format!(in alloc; "({left} {operator} {right})")
}

/// A literal's value, where it is a number of type `Int64` or a truth value.
fn value_text(alloc: Global, value: &AnyValue) -> Result<String, AllocError> {
    match value {
        AnyValue::Int64(x) => format!(in alloc; "{x}"),
        AnyValue::Boolean(true) => String::from_str(alloc, "true"),
        _ => String::from_str(alloc, "?"),
    }
}

/// An expression as a text.
pub(crate) fn expr_text(alloc: Global, expr: &Expr) -> Result<String, AllocError> {
    match expr {
        Expr::Col(name) => String::from_str(alloc, name.as_str()),
        Expr::Lit { value, .. } => value_text(alloc, value),
        Expr::Gt(a, b) => between(alloc, expr_text(alloc, a)?, ">", expr_text(alloc, b)?),
        Expr::Eq(a, b) => between(alloc, expr_text(alloc, a)?, "=", expr_text(alloc, b)?),
        Expr::Add(a, b) => between(alloc, expr_text(alloc, a)?, "+", expr_text(alloc, b)?),
        Expr::Or(a, b) => between(alloc, expr_text(alloc, a)?, "or", expr_text(alloc, b)?),
        Expr::And(a, b) => between(alloc, expr_text(alloc, a)?, "and", expr_text(alloc, b)?),
        _ => String::from_str(alloc, "?"),
    }
}

/// Some names, one behind another.
pub(crate) fn names_text(alloc: Global, names: &[Text]) -> Result<String, AllocError> {
    let mut text = String::new(alloc);
    for name in names {
        text.push_str(" ")?;
        text.push_str(name.as_str())?;
    }
    Ok(text)
}

/// Some expressions under their names.
fn exprs_text(alloc: Global, exprs: &[NamedExpr]) -> Result<String, AllocError> {
    let mut text = String::new(alloc);
    for expr in exprs {
        let name = expr.name.as_str();
        let made = expr_text(alloc, &expr.expr)?;
        let one = format!(in alloc; " {name}={made}")?;
        text.push_str(one.as_str())?;
    }
    Ok(text)
}

/// The columns of a scan.
fn columns_text(alloc: Global, columns: &Option<List<Text>>) -> Result<String, AllocError> {
    match columns {
        Some(names) => names_text(alloc, names.as_slice()),
        None => String::from_str(alloc, " all"),
    }
}

/// A function as a text.
fn function_text(alloc: Global, input: u32, function: &FunctionIR) -> Result<String, AllocError> {
    match function {
        FunctionIR::Unpivot { on, index, .. } => {
            let on = names_text(alloc, on.as_slice())?;
            let index = names_text(alloc, index.as_slice())?;
            format!(in alloc; "unpivot {input} on{on} index{index}")
        }
        FunctionIR::Rename { pairs } => {
            let mut text = format!(in alloc; "rename {input}")?;
            for pair in pairs.as_slice() {
                let old = pair.existing.as_str();
                let new = pair.new_name.as_str();
                let one = format!(in alloc; " {old}>{new}")?;
                text.push_str(one.as_str())?;
            }
            Ok(text)
        }
    }
}

/// Some numbers, one behind another.
fn numbers_text(alloc: Global, numbers: &[u32]) -> Result<String, AllocError> {
    let mut text = String::new(alloc);
    for number in numbers {
        let one = format!(in alloc; " {number}")?;
        text.push_str(one.as_str())?;
    }
    Ok(text)
}

/// A node as a text.
pub(crate) fn node_text(alloc: Global, node: &IR) -> Result<String, AllocError> {
    match node {
        IR::DataFrameScan { frame, columns } => {
            let columns = columns_text(alloc, columns)?;
            format!(in alloc; "scan {frame}:{columns}")
        }
        IR::Filter { input, predicate } => {
            let predicate = expr_text(alloc, predicate)?;
            format!(in alloc; "filter {input}: {predicate}")
        }
        IR::SimpleProjection { input, columns } => {
            let columns = names_text(alloc, columns.as_slice())?;
            format!(in alloc; "project {input}:{columns}")
        }
        IR::Select { input, exprs } => {
            let exprs = exprs_text(alloc, exprs.as_slice())?;
            format!(in alloc; "select {input}:{exprs}")
        }
        IR::HStack { input, exprs } => {
            let exprs = exprs_text(alloc, exprs.as_slice())?;
            format!(in alloc; "extend {input}:{exprs}")
        }
        IR::MapFunction { input, function } => function_text(alloc, *input, function),
        IR::Union { inputs } => {
            let inputs = numbers_text(alloc, inputs.as_slice())?;
            format!(in alloc; "union{inputs}")
        }
        IR::Join { left, right, .. } => format!(in alloc; "join {left} {right}"),
        IR::Sort { input, by, .. } => {
            let by = names_text(alloc, by.as_slice())?;
            format!(in alloc; "sort {input} by{by}")
        }
    }
}
