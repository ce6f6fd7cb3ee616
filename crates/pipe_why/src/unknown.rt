//! What is told of a column that isn't there.

use crate::inputs::schema_of;
use crate::node_words::{numbers_read, push_kind, push_node};
use pipe_expr::Expr;
use pipe_plan::{Arena, IR};
use pipe_schema::{Field, Schema, Text};
use pipe_why_text::{distance, is_near, push_field, push_name};
use std::alloc::{AllocError, Global};
use std::fmt::Write;

/// How many columns are told.
const MOST_COLUMNS: usize = 12;

/// A column and how many changes lead to its name.
#[derive(Clone, Copy)]
struct Near {
    changes: usize,
    place: usize,
}

/// Columns, those first to whose names the fewest changes lead.
fn nearest_first(alloc: Global, fields: &[Field], name: &Text) -> Result<Vec<Near>, AllocError> {
    let mut order = Vec::new(alloc);
    for (place, field) in fields.iter().enumerate() {
        let changes = distance(alloc, name.as_str(), field.name.as_str())?;
        order.push(Near { changes, place })?;
    }
    order.sort_by_key(|near: &Near| near.changes)?;
    Ok(order)
}

/// Appends the columns of a schema, nearest first, and which is near.
pub fn push_columns(
    alloc: Global,
    out: &mut String,
    schema: &Schema,
    name: &Text,
) -> Result<(), AllocError> {
    let fields = schema.fields();
    let order = nearest_first(alloc, fields, name)?;
    let mut told = 0usize;
    for near in order.as_slice() {
        let Some(field) = fields.get(near.place) else {
            continue;
        };
        if told == MOST_COLUMNS {
            write!(out, " and {} more", fields.len().saturating_sub(told))?;
            break;
        }
        if told != 0 {
            out.push_str(", ")?;
        }
        push_field(out, field)?;
        told = told.saturating_add(1);
    }
    out.push_str("\n")?;
    push_near(out, fields, order.as_slice())
}

/// Appends the nearest column, where it is near.
fn push_near(out: &mut String, fields: &[Field], order: &[Near]) -> Result<(), AllocError> {
    let Some(near) = order.first() else {
        return Ok(());
    };
    match fields.get(near.place) {
        Some(field) if is_near(near.changes, field.name.as_str()) => {
            out.push_str("hint: the nearest is ")?;
            push_name(out, &field.name)?;
            out.push_str("\n")
        }
        _ => Ok(()),
    }
}

/// Whether an expression reads a column.
fn reads(expr: &Expr, name: &Text) -> bool {
    match expr {
        Expr::Col(column) => column.is_same(name),
        Expr::Lit { .. } => false,
        Expr::Add(left, right)
        | Expr::Sub(left, right)
        | Expr::Mul(left, right)
        | Expr::Eq(left, right)
        | Expr::NotEq(left, right)
        | Expr::Lt(left, right)
        | Expr::LtEq(left, right)
        | Expr::Gt(left, right)
        | Expr::GtEq(left, right)
        | Expr::And(left, right)
        | Expr::Or(left, right) => reads(left, name) || reads(right, name),
        Expr::Not(inner) | Expr::IsNull(inner) | Expr::IsNotNull(inner) => reads(inner, name),
    }
}

/// Whether one of some expressions reads a column.
fn is_read_in(exprs: &[Expr], name: &Text) -> bool {
    for expr in exprs {
        if reads(expr, name) {
            return true;
        }
    }
    false
}

/// Whether a schema has a column.
fn has(schema: &Option<Schema>, name: &Text) -> bool {
    match schema {
        Some(schema) => schema.index_of(name.as_bytes()).is_some(),
        None => false,
    }
}

/// Appends that an input of a node lacks a column, and which it has.
fn push_lacking(
    alloc: Global,
    out: &mut String,
    arena: &Arena,
    which: &str,
    input: u32,
    name: &Text,
) -> Result<(), AllocError> {
    write!(out, ": {which}, ")?;
    push_node(out, arena, input)?;
    out.push_str(", has no column ")?;
    push_name(out, name)?;
    out.push_str("\nexpected: one of ")?;
    match schema_of(alloc, arena, input)? {
        Some(schema) => push_columns(alloc, out, &schema, name),
        None => out.push_str("its columns\n"),
    }
}

/// Appends that a frame lacks a column that a scan names, and which it has.
fn push_scan(
    alloc: Global,
    out: &mut String,
    arena: &Arena,
    frame: u32,
    name: &Text,
) -> Result<(), AllocError> {
    write!(out, ": frame {frame} has no column ")?;
    push_name(out, name)?;
    out.push_str("\nexpected: one of ")?;
    match arena.frames.as_slice().get(frame as usize) {
        Some(frame) => push_columns(alloc, out, frame.schema(), name),
        None => out.push_str("its columns\n"),
    }
}

/// Appends which side of a join lacks a column.
fn push_join(
    alloc: Global,
    out: &mut String,
    arena: &Arena,
    left: u32,
    right: u32,
    left_on: &[Expr],
    name: &Text,
) -> Result<(), AllocError> {
    let schema = schema_of(alloc, arena, left)?;
    if is_read_in(left_on, name) && !has(&schema, name) {
        push_lacking(alloc, out, arena, "left_on: its left input", left, name)
    } else {
        push_lacking(alloc, out, arena, "right_on: its right input", right, name)
    }
}

/// Appends what is told of a column that a node reads and its input lacks.
pub(crate) fn push_unknown(
    alloc: Global,
    out: &mut String,
    arena: &Arena,
    n: u32,
    name: &Text,
) -> Result<(), AllocError> {
    push_kind(out, arena, n)?;
    match arena.nodes.as_slice().get(n as usize) {
        Some(IR::DataFrameScan { frame, .. }) => { push_scan(alloc, out, arena, *frame, name) }
        Some(
            IR::Join {
                left,
                right,
                left_on,
                ..
            },
        ) => push_join(alloc, out, arena, *left, *right, left_on.as_slice(), name),
        Some(node) => {
            let inputs = numbers_read(alloc, node)?;
            match inputs.as_slice().first() {
                Some(input) => push_lacking(alloc, out, arena, "its input", *input, name),
                None => out.push_str("\n"),
            }
        }
        None => out.push_str("\n"),
    }
}
