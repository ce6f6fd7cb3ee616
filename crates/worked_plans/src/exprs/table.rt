//! The worked expressions, in the order in which they are told.

use crate::exprs::copies::named;
use crate::exprs::told::{expr_line, type_text};
use crate::exprs::types::{COLUMNS, EXPRS};
use crate::exprs::{copies, nested};
use crate::written::plan_of_line;
use pipe_expr::NamedExpr;
use pipe_frame::{DataChunk, DataFrame};
use pipe_plan::{Arena, IR};
use pipe_schema::{Schema, TryClone};
use std::alloc::{AllocError, Global};
use worked_columns::{INT, WrittenColumn, frame_of};

/// Appends the lines of expressions over a frame.
fn tell_over(
    alloc: Global,
    answers: &mut String,
    frame: DataFrame,
    exprs: &[NamedExpr],
) -> Result<(), AllocError> {
    let chunk = DataChunk::new(0, frame);
    for expr in exprs {
        answers.push_str(expr_line(alloc, expr, &chunk)?.as_str())?;
    }
    Ok(())
}

/// Appends the lines of what a plan's second node selects, over its one frame.
fn tell_selected(alloc: Global, answers: &mut String, arena: &Arena) -> Result<(), AllocError> {
    let frame = arena.frames.as_slice().first();
    match (frame, arena.nodes.as_slice().get(1)) {
        (Some(frame), Some(IR::Select { exprs, .. })) => {
            tell_over(alloc, answers, frame.try_clone()?, exprs.as_slice())
        }
        _ => answers.push_str("no expressions\n"),
    }
}

/// Appends what each selection shows, and the lines of its expressions.
fn tell_lines(alloc: Global, answers: &mut String, lines: &[&str]) -> Result<(), AllocError> {
    for line in lines {
        if line.starts_with("# ") {
            answers.push_str(line)?;
            answers.push_str("\n")?;
        } else {
            tell_selected(alloc, answers, &plan_of_line(alloc, line)?.arena)?;
        }
    }
    Ok(())
}

/// The types of expressions over a schema.
fn tell_types_over(alloc: Global, answers: &mut String, schema: &Schema) -> Result<(), AllocError> {
    for (name, written) in EXPRS {
        let expr = named(alloc, name, *written)?;
        let told = type_text(alloc, &expr, schema)?;
        answers.push_str(format!(in alloc; "{name}: {told}\n")?.as_str())?;
    }
    Ok(())
}

fn tell_types(alloc: Global, answers: &mut String) -> Result<(), AllocError> {
    answers.push_str("# types\n")?;
    match frame_of(alloc, COLUMNS)? {
        Some(frame) => tell_types_over(alloc, answers, frame.schema()),
        None => answers.push_str("no frame\n"),
    }
}

const ONE_COLUMN: &[WrittenColumn<'static>] = &[("k", INT, &["-", "1", "5"])];

/// What is told over the one column `k`: expressions of several operators, and copies.
fn tell_over_k(alloc: Global, answers: &mut String) -> Result<(), AllocError> {
    match frame_of(alloc, ONE_COLUMN)? {
        Some(frame) => {
            let chunk = DataChunk::new(0, frame);
            answers.push_str(nested::lines(alloc, &chunk)?.as_str())?;
            answers.push_str(copies::lines(alloc, &chunk)?.as_str())
        }
        None => answers.push_str("no frame\n"),
    }
}

/// What each expression shows, and its answer.
pub(crate) fn answers(alloc: Global, lines: &[&str]) -> Result<String, AllocError> {
    let mut answers = String::new(alloc);
    tell_lines(alloc, &mut answers, lines)?;
    tell_types(alloc, &mut answers)?;
    tell_over_k(alloc, &mut answers)?;
    Ok(answers)
}
