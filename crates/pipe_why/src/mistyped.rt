//! What is told of expressions, keys, columns and inputs whose types don't fit.

use crate::formulas::{push_untyped, type_or_none};
use crate::inputs::{columns_of, schema_of, schemas_below};
use crate::node_words::push_kind;
use pipe_check::{Columns, are_same_types, column_type, columns_of as columns_at, expr_type};
use pipe_expr::{Expr, FunctionIR, NamedExpr};
use pipe_plan::{Arena, IR};
use pipe_schema::{Field, Text};
use pipe_why_text::{push_count, push_field, push_name};
use std::alloc::{AllocError, Global};
use std::fmt::Write;

/// Appends that a predicate has no type, or another one than Boolean.
fn push_predicate(
    alloc: Global,
    out: &mut String,
    predicate: &Expr,
    columns: &Columns,
) -> Result<(), AllocError> {
    match expr_type(predicate, columns) {
        Some(dtype) => write!(
            out,
            ": the predicate isn't a truth value\nexpected: predicate: an expression of type Boolean\nfound: {}\n",
            type_or_none(Some(dtype))
        ),
        None => {
            let mut path = String::from_str(alloc, "predicate")?;
            push_untyped(out, &mut path, predicate, columns)
        }
    }
}

/// Appends why the first of some named expressions without a type has none.
fn push_named(
    alloc: Global,
    out: &mut String,
    exprs: &[NamedExpr],
    columns: &Columns,
) -> Result<(), AllocError> {
    for (i, named) in exprs.iter().enumerate() {
        if expr_type(&named.expr, columns).is_none() {
            let mut path = format!(in alloc; "exprs[{i}].expr")?;
            return push_untyped(out, &mut path, &named.expr, columns);
        }
    }
    out.push_str("\n")
}

/// Appends why the first of some keys without a type has none, where there is one.
fn push_untyped_key(
    alloc: Global,
    out: &mut String,
    which: &str,
    keys: &[Expr],
    columns: &Columns,
) -> Result<bool, AllocError> {
    for (i, key) in keys.iter().enumerate() {
        if expr_type(key, columns).is_none() {
            let mut path = format!(in alloc; "{which}[{i}]")?;
            push_untyped(out, &mut path, key, columns)?;
            return Ok(true);
        }
    }
    Ok(false)
}

/// Appends a key as far as it is a column.
fn push_key(out: &mut String, key: &Expr, columns: &Columns) -> Result<(), AllocError> {
    if let Expr::Col(name) = key {
        push_name(out, name)?;
        out.push_str(" ")?;
    }
    out.push_str(type_or_none(expr_type(key, columns)))
}

/// Appends the first pair of keys that have two types.
fn push_pair(
    out: &mut String,
    left_on: &[Expr],
    right_on: &[Expr],
    left: &Columns,
    right: &Columns,
) -> Result<(), AllocError> {
    for (i, (a, b)) in left_on.iter().zip(right_on).enumerate() {
        if !are_same_types(expr_type(a, left), expr_type(b, right)) {
            write!(
                out,
                ": left_on[{i}] and right_on[{i}] have two types\nexpected: one type on both sides\nfound: "
            )?;
            push_key(out, a, left)?;
            out.push_str(" on the left, ")?;
            push_key(out, b, right)?;
            return out.push_str(" on the right\n");
        }
    }
    out.push_str("\n")
}

/// Appends which keys of a join have no type, or two.
fn push_keys(
    alloc: Global,
    out: &mut String,
    arena: &Arena,
    inputs: (u32, u32),
    left_on: &[Expr],
    right_on: &[Expr],
) -> Result<(), AllocError> {
    let left = schema_of(alloc, arena, inputs.0)?;
    let right = schema_of(alloc, arena, inputs.1)?;
    let left = columns_of(&left);
    let right = columns_of(&right);
    if push_untyped_key(alloc, out, "left_on", left_on, &left)? {
        return Ok(());
    }
    if push_untyped_key(alloc, out, "right_on", right_on, &right)? {
        return Ok(());
    }
    push_pair(out, left_on, right_on, &left, &right)
}

/// Whether two columns have one name and one type.
fn is_same_field(a: &Field, b: &Field) -> bool {
    a.name.is_same(&b.name) && a.dtype == b.dtype
}

/// Appends the first column in which two inputs of a union differ, where they do.
fn push_difference(
    out: &mut String,
    i: usize,
    first: &[Field],
    other: &[Field],
) -> Result<bool, AllocError> {
    for (c, (a, b)) in first.iter().zip(other).enumerate() {
        if !is_same_field(a, b) {
            write!(
                out,
                ": column {c} of inputs[{i}] isn't that of inputs[0]\nexpected: the same names and types, in one order: "
            )?;
            push_field(out, a)?;
            out.push_str("\nfound: ")?;
            push_field(out, b)?;
            out.push_str("\n")?;
            return Ok(true);
        }
    }
    if first.len() == other.len() {
        return Ok(false);
    }
    write!(
        out,
        ": inputs[{i}] hasn't as many columns as inputs[0]\nexpected: "
    )?;
    push_count(out, first.len(), "column")?;
    out.push_str("\nfound: ")?;
    push_count(out, other.len(), "column")?;
    out.push_str("\n")?;
    Ok(true)
}

/// Appends in what the inputs of a union differ.
fn push_union(
    alloc: Global,
    out: &mut String,
    arena: &Arena,
    n: u32,
    inputs: &[u32],
) -> Result<(), AllocError> {
    let Some(first) = inputs.first() else {
        return out.push_str("\n");
    };
    let schemas = schemas_below(alloc, arena, n)?;
    let columns = columns_at(schemas.as_slice(), *first);
    for (i, input) in inputs.iter().enumerate() {
        let other = columns_at(schemas.as_slice(), *input);
        if push_difference(out, i, columns.fields(), other.fields())? {
            return out.push_str(
                "hint: a Select before it brings columns into one order and under one name\n",
            );
        }
    }
    out.push_str("\n")
}

/// Appends which columns of an unpivot have two types.
fn push_on(out: &mut String, on: &[Text], columns: &Columns) -> Result<(), AllocError> {
    let Some(first) = on.first() else {
        return out.push_str("\n");
    };
    for name in on {
        if !are_same_types(column_type(first, columns), column_type(name, columns)) {
            out.push_str(
                ": the columns of on have two types\nexpected: on: columns of one type\nfound: ",
            )?;
            push_name(out, first)?;
            write!(out, " {}, ", type_or_none(column_type(first, columns)))?;
            push_name(out, name)?;
            return write!(out, " {}\n", type_or_none(column_type(name, columns)));
        }
    }
    out.push_str("\n")
}

/// Appends what doesn't fit at a node.
fn push_at(
    alloc: Global,
    out: &mut String,
    arena: &Arena,
    n: u32,
    node: &IR,
) -> Result<(), AllocError> {
    match node {
        IR::Filter { input, predicate } => {
            let schema = schema_of(alloc, arena, *input)?;
            push_predicate(alloc, out, predicate, &columns_of(&schema))
        }
        IR::Select { input, exprs } | IR::HStack { input, exprs } => {
            let schema = schema_of(alloc, arena, *input)?;
            push_named(alloc, out, exprs.as_slice(), &columns_of(&schema))
        }
        IR::MapFunction {
            input,
            function: FunctionIR::Unpivot { on, .. },
        } => {
            let schema = schema_of(alloc, arena, *input)?;
            push_on(out, on.as_slice(), &columns_of(&schema))
        }
        IR::Union { inputs } => push_union(alloc, out, arena, n, inputs.as_slice()),
        IR::Join {
            left,
            right,
            left_on,
            right_on,
            ..
        } => push_keys(
            alloc,
            out,
            arena,
            (*left, *right),
            left_on.as_slice(),
            right_on.as_slice(),
        ),
        _ => out.push_str("\n"),
    }
}

/// Appends what is told of types that don't fit at a node.
pub(crate) fn push_mistyped(
    alloc: Global,
    out: &mut String,
    arena: &Arena,
    n: u32,
) -> Result<(), AllocError> {
    push_kind(out, arena, n)?;
    match arena.nodes.as_slice().get(n as usize) {
        Some(node) => push_at(alloc, out, arena, n, node),
        None => out.push_str("\n"),
    }
}
