//! The answer to a plan: its fault, or the names of its columns and its rows.

ghost use Rattle.std.specs.Prelude.{◌<◌, ◌^◌, length};

use crate::alike::is_told_alike;
use crate::lines::{fault_line, head_line};
use crate::written::plan_of_line;
use pipe_frame::Row;
use pipe_plain::{plan_fault, rows, schema};
use pipe_plan::{Arena, IR, swap_join_order};
use pipe_schema::AnyValue;
use std::alloc::{AllocError, Global};
use worked_builders::BuiltPlan;

/// A cell in JSON: numbers of 128 bits as texts, bytes in hexadecimal digits.
fn cell_text(alloc: Global, cell: &AnyValue) -> Result<String, AllocError> {
    match cell {
        AnyValue::Null => String::from_str(alloc, "null"),
        AnyValue::Int32(x) => format!(in alloc; "{x}"),
        AnyValue::Int64(x) => format!(in alloc; "{x}"),
        AnyValue::UInt32(x) => format!(in alloc; "{x}"),
        AnyValue::UInt64(x) => format!(in alloc; "{x}"),
        AnyValue::Int128(x) => format!(in alloc; "\"{x}\""),
        AnyValue::Boolean(x) => format!(in alloc; "{x}"),
        AnyValue::String(x) => format!(in alloc; "\"{}\"", x.as_str()),
        AnyValue::Binary(x) => {
            let digits = hex::encode(alloc, x.as_slice())?;
            format!(in alloc; "\"{digits}\"")
        }
    }
}

/// The line of the cells of a row.
fn row_line(alloc: Global, row: &Row) -> Result<String, AllocError> {
    let mut line = String::from_str(alloc, "[")?;
    for (place, cell) in row.as_slice().iter().enumerate() {
        if place > 0 {
            line.push_str(",")?;
        }
        line.push_str(cell_text(alloc, cell)?.as_str())?;
    }
    line.push_str("]\n")?;
    Ok(line)
}

/// The lines of some rows, in the order of their texts where no other is asked for.
fn row_lines(alloc: Global, rows: &[Row], is_in_order: bool) -> Result<Vec<String>, AllocError> {
    let mut lines = Vec::new(alloc);
    for row in rows {
        lines.push(row_line(alloc, row)?)?;
    }
    if !is_in_order {
        lines.sort()?;
    }
    Ok(lines)
}

/// Which side is built, where the node is a join.
fn side_line(node: Option<&IR>) -> &'static str {
    match node {
        Some(IR::Join { options, .. }) => if swap_join_order(options) {
            "right side built\n"
        } else {
            "left side built\n"
        },
        _ => "",
    }
}

/// Whether a node puts its rows in an order.
fn is_sort(node: Option<&IR>) -> bool {
    matches!(node, Some(IR::Sort { .. }))
}

/// What the plain program gives for a plan that has no fault.
fn rows_text(alloc: Global, arena: &Arena, root: u32) -> Result<String, AllocError> {
    let node = arena.nodes.as_slice().get(root as usize);
    let mut text = String::from_str(alloc, side_line(node))?;
    text.push_str(head_line(alloc, schema(alloc, arena, root)?.as_slice())?.as_str())?;
    let rows = rows(alloc, arena, root)?;
    for line in &row_lines(alloc, rows.as_slice(), is_sort(node))? {
        text.push_str(line.as_str())?;
    }
    Ok(text)
}

/// The fault of a plan, or what it gives.
fn plan_text(alloc: Global, arena: &Arena, root: u32) -> Result<String, AllocError>
    requires { length arena.now.nodes < 2 ^ 32 }
{
    match plan_fault(alloc, arena, root)? {
        Some(fault) => fault_line(alloc, &fault),
        None => rows_text(alloc, arena, root),
    }
}

/// A line where the check of a plan tells something else than the plain program, and none where it tells the same.
fn check_line(alloc: Global, arena: &Arena, root: u32) -> Result<&'static str, AllocError>
    requires { length arena.now.nodes < 2 ^ 32 }
{
    if is_told_alike(alloc, arena, root)? {
        Ok("")
    } else {
        Ok("the check tells something else\n")
    }
}

/// Appends the answer to a plan.
fn tell(alloc: Global, answers: &mut String, plan: &BuiltPlan) -> Result<(), AllocError> {
    if plan.arena.nodes.len() < 4294967296 {
        answers.push_str(plan_text(alloc, &plan.arena, plan.root)?.as_str())?;
        answers.push_str(check_line(alloc, &plan.arena, plan.root)?)?;
    }
    Ok(())
}

/// What each plan shows, and its answer.
pub(crate) fn answers(alloc: Global, lines: &[&str]) -> Result<String, AllocError> {
    let mut answers = String::new(alloc);
    for line in lines {
        if line.starts_with("# ") {
            answers.push_str(line)?;
            answers.push_str("\n")?;
        } else {
            tell(alloc, &mut answers, &plan_of_line(alloc, line)?)?;
        }
    }
    Ok(answers)
}
