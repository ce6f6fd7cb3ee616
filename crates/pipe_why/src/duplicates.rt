//! What is told of a name that would stand twice.

use crate::inputs::{columns_of, schema_of};
use crate::node_words::{push_kind, push_node};
use pipe_expr::{FunctionIR, NamedExpr, RenamePair};
use pipe_plan::{Arena, IR};
use pipe_schema::Text;
use pipe_why_text::{push_fields, push_name};
use std::alloc::{AllocError, Global};
use std::fmt::Write;

/// How often a name is among some.
fn times(names: &[Text], name: &Text) -> usize {
    let mut count = 0usize;
    for other in names {
        if other.is_same(name) {
            count = count.saturating_add(1);
        }
    }
    count
}

/// How many expressions have a name.
fn times_named(exprs: &[NamedExpr], name: &Text) -> usize {
    let mut count = 0usize;
    for expr in exprs {
        if expr.name.is_same(name) {
            count = count.saturating_add(1);
        }
    }
    count
}

/// How many columns are renamed that have this name.
fn times_renamed(pairs: &[RenamePair], name: &Text) -> usize {
    let mut count = 0usize;
    for pair in pairs {
        if pair.existing.is_same(name) {
            count = count.saturating_add(1);
        }
    }
    count
}

/// Appends a sentence before a name and one behind it.
fn push_around(
    out: &mut String,
    before: &str,
    name: &Text,
    behind: &str,
) -> Result<(), AllocError> {
    out.push_str(before)?;
    push_name(out, name)?;
    out.push_str(behind)
}

/// Appends the columns of an input.
fn push_input(
    alloc: Global,
    out: &mut String,
    arena: &Arena,
    which: &str,
    input: u32,
) -> Result<(), AllocError> {
    let schema = schema_of(alloc, arena, input)?;
    write!(out, "{which}, ")?;
    push_node(out, arena, input)?;
    out.push_str(", has: ")?;
    push_fields(out, columns_of(&schema).fields())?;
    out.push_str("\n")
}

/// Appends which columns of a function have one name.
fn push_function(
    alloc: Global,
    out: &mut String,
    arena: &Arena,
    input: u32,
    function: &FunctionIR,
    name: &Text,
) -> Result<(), AllocError> {
    match function {
        FunctionIR::Unpivot { on, .. } => {
            if 1 < times(on.as_slice(), name) {
                return push_around(
                    out,
                    ": on names the column ",
                    name,
                    " twice\nexpected: on: distinct names\n",
                );
            }
            push_around(
                out,
                ": it would give two columns ",
                name,
                "\nexpected: distinct names among those of index, variable and value\n",
            )
        }
        FunctionIR::Rename { pairs } => {
            if 1 < times_renamed(pairs.as_slice(), name) {
                return push_around(
                    out,
                    ": it renames the column ",
                    name,
                    " twice\nexpected: pairs: each existing name once\n",
                );
            }
            push_around(
                out,
                ": it would give two columns ",
                name,
                "\nexpected: a new name that no other column has\n",
            )?;
            push_input(alloc, out, arena, "its input", input)
        }
    }
}

/// Appends what helps with a join whose columns would have one name.
fn push_join(
    alloc: Global,
    out: &mut String,
    arena: &Arena,
    left: u32,
    right: u32,
    suffix: &Text,
    name: &Text,
) -> Result<(), AllocError> {
    push_around(
        out,
        ": it would give two columns ",
        name,
        "\nexpected: distinct names: suffix, ",
    )?;
    push_name(out, suffix)?;
    out.push_str(", is added to each right column whose name the left input has\n")?;
    push_input(alloc, out, arena, "its left input", left)?;
    push_input(alloc, out, arena, "its right input", right)?;
    out.push_str("hint: take another suffix, or rename the column before\n")
}

/// Appends which name a node would give twice, or names twice.
fn push_at(
    alloc: Global,
    out: &mut String,
    arena: &Arena,
    node: &IR,
    name: &Text,
) -> Result<(), AllocError> {
    match node {
        IR::DataFrameScan { .. } | IR::SimpleProjection { .. } => push_around(
            out,
            ": columns names ",
            name,
            " twice\nexpected: columns: distinct names\n",
        ),
        IR::Select { exprs, .. } | IR::HStack { exprs, .. } => {
            push_around(out, ": it has ", name, " as the name of ")?;
            write!(
                out,
                "{} expressions\nexpected: exprs: distinct names\n",
                times_named(exprs.as_slice(), name)
            )
        }
        IR::MapFunction { input, function } => {
            push_function(alloc, out, arena, *input, function, name)
        }
        IR::Join {
            left,
            right,
            options,
            ..
        } => push_join(alloc, out, arena, *left, *right, &options.suffix, name),
        IR::Filter { .. } | IR::Union { .. } | IR::Sort { .. } => push_around(
            out,
            ": it would give two columns ",
            name,
            "\n",
        ),
    }
}

/// Appends what is told of a name that would stand twice.
pub(crate) fn push_duplicate(
    alloc: Global,
    out: &mut String,
    arena: &Arena,
    n: u32,
    name: &Text,
) -> Result<(), AllocError> {
    push_kind(out, arena, n)?;
    match arena.nodes.as_slice().get(n as usize) {
        Some(node) => push_at(alloc, out, arena, node, name),
        None => out.push_str("\n"),
    }
}
