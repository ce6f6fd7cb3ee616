//! The cases, in the order in which they are told.

use crate::journals::gates::CountGate;
use crate::journals::pipelines::tell_pipelines;
use crate::journals::plans::{EIGHT, EIGHT_JOINED, PLANS};
use crate::journals::runs::{lines, ran, taken_by};
use pipe_schema::OpenGate;
use std::alloc::{AllocError, Global};
use std::thread::Threads;
use worked_builders::{BuiltPlan, WrittenNode, plan_of};

/// The pipelines of a plan, and what one worker does with it, in chunks of two rows.
fn tell_journal<R: Threads + Sync>(
    rt: &R,
    alloc: Global,
    answers: &mut String,
    plan: &BuiltPlan,
) -> Result<(), AllocError> {
    match ran(rt, alloc, plan, 1, 2, &OpenGate) {
        Ok(answer) => {
            tell_pipelines(alloc, answers, &plan.arena, plan.root, &answer)?;
            answers.push_str(lines(alloc, &answer)?.as_str())
        }
        Err(refusal) => answers.push_str(format!(in alloc; "{refusal}\n")?.as_str()),
    }
}

/// Whether each of some workers took and flushed as often as it entered a gate, in chunks of one row.
fn tell_entries<R: Threads + Sync>(
    rt: &R,
    alloc: Global,
    answers: &mut String,
    plan: &BuiltPlan,
    workers: u32,
    gate: &CountGate,
) -> Result<(), AllocError> {
    let told = match ran(rt, alloc, plan, workers, 1, gate) {
        Ok(answer) => {
            let mut entries = 0_u64;
            let mut as_often = true;
            for worker in 0..workers {
                let came = gate.came(worker);
                entries = entries.saturating_add(came);
                as_often = as_often && taken_by(&answer, worker) == came;
            }
            format!(in alloc;
                "{workers} workers: {entries} entries; as often as entered: {as_often}\n"
            )?
        }
        Err(refusal) => format!(in alloc; "{workers} workers: {refusal}\n")?,
    };
    answers.push_str(told.as_str())
}

/// What a plan shows, its pipelines, its journal by one worker, and the entries of two workers and of three.
fn tell_plan<R: Threads + Sync>(
    rt: &R,
    alloc: Global,
    answers: &mut String,
    shows: &str,
    nodes: &[WrittenNode],
) -> Result<(), AllocError> {
    answers.push_str(shows)?;
    answers.push_str("\n")?;
    let plan = plan_of(alloc, nodes)?;
    tell_journal(rt, alloc, answers, &plan)?;
    tell_entries(rt, alloc, answers, &plan, 2, &CountGate::new(false))?;
    tell_entries(rt, alloc, answers, &plan, 3, &CountGate::new(false))
}

/// A worker that is held at its first chunk of eight, while the other takes the other seven.
fn tell_held<R: Threads + Sync>(
    rt: &R,
    alloc: Global,
    answers: &mut String,
    shows: &str,
    nodes: &[WrittenNode],
) -> Result<(), AllocError> {
    answers.push_str(shows)?;
    answers.push_str("\n")?;
    let plan = plan_of(alloc, nodes)?;
    let gate = CountGate::new(true);
    tell_entries(rt, alloc, answers, &plan, 2, &gate)?;
    let seven = gate.came(1) >= 7;
    answers.push_str(format!(in alloc; "worker 1 took seven: {seven}\n")?.as_str())
}

/// What each case shows, and its answer.
pub(crate) fn answers<R: Threads + Sync>(rt: &R, alloc: Global) -> Result<String, AllocError> {
    let mut answers = String::new(alloc);
    for (shows, nodes) in PLANS {
        tell_plan(rt, alloc, &mut answers, shows, nodes)?;
    }
    tell_held(rt, alloc, &mut answers, "eight rows, worker 0 held", EIGHT)?;
    tell_held(
        rt,
        alloc,
        &mut answers,
        "eight probed rows of a full join, worker 0 held",
        EIGHT_JOINED,
    )?;
    Ok(answers)
}
