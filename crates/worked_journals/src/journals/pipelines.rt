//! The pipelines of a plan, as they are explained, and whether a run takes their sources in that order.

use pipe_check::{CheckedPlan, check_plan};
use pipe_driver::{cut, explain};
use pipe_events::Event;
use pipe_exec::RunAnswer;
use pipe_plan::{Arena, IR};
use std::alloc::{AllocError, Global};

/// Adds the scans that a source reads, in order: those of a union, or the source itself.
fn push_scans(arena: &Arena, source: u32, scans: &mut Vec<u32>) -> Result<(), AllocError> {
    let node = arena.nodes.as_slice().get(source as usize);
    if let Some(IR::Union { inputs }) = node {
        for input in inputs.as_slice() {
            scans.push(*input)?;
        }
        return Ok(());
    }
    scans.push(source)?;
    Ok(())
}

/// The scans that the sources of a plan's pipelines read, in the order of the pipelines.
fn explained_scans(
    alloc: Global,
    arena: &Arena,
    plan: &CheckedPlan,
) -> Result<Vec<u32>, AllocError> {
    let mut scans = Vec::new(alloc);
    let branches = cut(alloc, plan)?;
    for branch in branches.as_slice() {
        push_scans(arena, branch.source, &mut scans)?;
    }
    Ok(scans)
}

/// The scans that a run took of, in the order of its journal, each as often as it was begun anew.
fn taken_scans(alloc: Global, scans: &[u32], answer: &RunAnswer) -> Result<Vec<u32>, AllocError> {
    let mut taken = Vec::new(alloc);
    let mut last = None;
    for event in answer.journal.events.as_slice() {
        if let Event::Take { source, .. } = event {
            if scans.contains(source) && last != Some(*source) {
                taken.push(*source)?;
                last = Some(*source);
            }
        }
    }
    Ok(taken)
}

/// A line of nodes behind a word.
fn push_nodes(
    alloc: Global,
    answers: &mut String,
    word: &str,
    nodes: &[u32],
) -> Result<(), AllocError> {
    answers.push_str(word)?;
    for node in nodes {
        answers.push_str(format!(in alloc; " {node}")?.as_str())?;
    }
    answers.push_str("\n")
}

/// The texts of a plan's pipelines, the scans that they read in that order, and those that a run took of in its order.
pub(crate) fn tell_pipelines(
    alloc: Global,
    answers: &mut String,
    arena: &Arena,
    root: u32,
    answer: &RunAnswer,
) -> Result<(), AllocError> {
    let Ok(plan) = check_plan(alloc, arena, root) else {
        return answers.push_str("refused\n");
    };
    let texts = explain(alloc, &plan)?;
    for text in texts.as_slice() {
        answers.push_str("pipeline ")?;
        answers.push_str(text.as_str())?;
        answers.push_str("\n")?;
    }
    let scans = explained_scans(alloc, arena, &plan)?;
    let taken = taken_scans(alloc, scans.as_slice(), answer)?;
    push_nodes(alloc, answers, "they read", scans.as_slice())?;
    push_nodes(alloc, answers, "the run took of", taken.as_slice())
}
