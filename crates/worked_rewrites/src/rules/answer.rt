//! The answer to a case: each conjunct of a predicate, and where it goes.

use crate::shown::expr_text;
use crate::written::{is_shown, push_line};
use pipe_expr::Expr;
use pipe_plan::{Arena, IR};
use pipe_rules::{Placement, conjuncts, place_all};
use pipe_schema::Schema;
use std::alloc::{AllocError, Global};
use worked_texts::job_of;

/// Where a conjunct goes, as a text.
fn placement_text(alloc: Global, placement: &Placement) -> Result<String, AllocError> {
    match placement {
        Placement::Above(conjunct) => {
            let text = expr_text(alloc, conjunct)?;
            format!(in alloc; "above: {text}\n")
        }
        Placement::OnInputs(conjunct) => {
            let text = expr_text(alloc, conjunct)?;
            format!(in alloc; "on each input: {text}\n")
        }
        Placement::OnLeft(conjunct) => {
            let text = expr_text(alloc, conjunct)?;
            format!(in alloc; "on the left input: {text}\n")
        }
        Placement::OnRight(conjunct) => {
            let text = expr_text(alloc, conjunct)?;
            format!(in alloc; "on the right input: {text}\n")
        }
    }
}

/// Appends where each conjunct of a predicate goes.
fn push_placements(
    alloc: Global,
    answers: &mut String,
    node: &IR,
    left: &Schema,
    right: &Schema,
    predicate: &Expr,
) -> Result<(), AllocError> {
    let parts = conjuncts(alloc, predicate)?;
    let placements = place_all(alloc, node, left, right, parts)?;
    for placement in placements.as_slice() {
        let text = placement_text(alloc, placement)?;
        answers.push_str(text.as_str())?;
    }
    Ok(())
}

/// Appends where each conjunct of a case goes: its nodes are the node, and the filter on it; its frames have the schemas
/// of the left input and the right one.
fn push_case(alloc: Global, answers: &mut String, arena: &Arena) -> Result<(), AllocError> {
    let nodes = arena.nodes.as_slice();
    let frames = arena.frames.as_slice();
    match (nodes.first(), nodes.get(1), frames.first(), frames.get(1)) {
        (Some(node), Some(IR::Filter { predicate, .. }), Some(left), Some(right)) => {
            push_placements(
                alloc,
                answers,
                node,
                left.schema(),
                right.schema(),
                predicate,
            )
        }
        _ => answers.push_str("no case\n"),
    }
}

/// Appends where each conjunct of the case of a line goes.
fn tell(alloc: Global, answers: &mut String, line: &str) -> Result<(), AllocError> {
    match job_of(alloc, line)? {
        Some(job) => push_case(alloc, answers, &job.arena),
        None => answers.push_str("no job\n"),
    }
}

/// What each case shows, and where its conjuncts go.
pub(crate) fn answers(alloc: Global, lines: &[&str]) -> Result<String, AllocError> {
    let mut answers = String::new(alloc);
    for line in lines {
        if is_shown(line) {
            push_line(&mut answers, line)?;
        } else {
            tell(alloc, &mut answers, line)?;
        }
    }
    Ok(answers)
}
