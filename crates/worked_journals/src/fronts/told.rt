//! A plan told: the calls of its pipelines, and its rows.

use crate::fronts::calls::run_fronts;
use pipe_check::{CheckedPlan, check_plan};
use pipe_engine::Tools;
use pipe_frame::DataFrame;
use pipe_job::row_line;
use pipe_ops::PExecutionContext;
use pipe_plan::Arena;
use pipe_schema::OpenGate;
use std::alloc::{AllocError, Global};
use std::thread::Threads;
use worked_builders::{WrittenNode, plan_of};

/// The rows of a frame, one a line.
fn push_rows(alloc: Global, answers: &mut String, frame: &DataFrame) -> Result<(), AllocError> {
    for i in 0..frame.height() {
        let line = row_line(alloc, frame, i)?;
        answers.push_str(str::from_utf8(line.as_slice()).unwrap_or("not UTF-8\n"))?;
    }
    Ok(())
}

/// The calls of a plan's pipelines by two workers in chunks of one row, and its rows.
fn push_calls<R: Threads + Sync>(
    rt: &R,
    alloc: Global,
    answers: &mut String,
    plan: &CheckedPlan,
) -> Result<(), AllocError> {
    let context = PExecutionContext {
        workers: 2,
        chunk_rows: 1,
        row_limit: 100,
    };
    let gate = OpenGate;
    let tools = Tools {
        threads: rt,
        gate: &gate,
    };
    let ran = run_fronts(alloc, &tools, plan, context, answers);
    let Tools {
        threads: _,
        gate: _,
    } = tools;
    match ran {
        Ok(Some(frame)) => push_rows(alloc, answers, &frame),
        Ok(None) => answers.push_str("no rows\n"),
        Err(_error) => answers.push_str("refused\n"),
    }
}

/// A plan's calls, where it has no fault.
fn push_answer<R: Threads + Sync>(
    rt: &R,
    alloc: Global,
    answers: &mut String,
    arena: &Arena,
    root: u32,
) -> Result<(), AllocError> {
    match check_plan(alloc, arena, root) {
        Ok(plan) => push_calls(rt, alloc, answers, &plan),
        Err(_error) => answers.push_str("no plan\n"),
    }
}

/// What a plan shows, its calls and its rows.
pub(crate) fn tell_calls<R: Threads + Sync>(
    rt: &R,
    alloc: Global,
    answers: &mut String,
    shows: &str,
    nodes: &[WrittenNode],
) -> Result<(), AllocError> {
    answers.push_str(shows)?;
    answers.push_str("\n")?;
    let plan = plan_of(alloc, nodes)?;
    push_answer(rt, alloc, answers, &plan.arena, plan.root)
}
