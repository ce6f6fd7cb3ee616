//! A plan run, and what its journal says.

use pipe_events::{Event, Side};
use pipe_exec::{PipeConfig, RunAnswer, run_plan};
use pipe_plan::PipeError;
use pipe_schema::{Gate, NeverStop};
use std::alloc::{AllocError, Global};
use std::thread::Threads;
use worked_builders::BuiltPlan;

/// The answer of a plan by so many workers, in chunks of so many rows.
pub(crate) fn ran<R: Threads + Sync, G: Gate + Sync>(
    rt: &R,
    alloc: Global,
    plan: &BuiltPlan,
    workers: u32,
    chunk_rows: u32,
    gate: &G,
) -> Result<RunAnswer, PipeError> {
    let config = PipeConfig {
        workers,
        chunk_rows,
        row_limit: 1000,
    };
    let mut stop = NeverStop::new();
    run_plan(rt, alloc, &plan.arena, plan.root, &config, &mut stop, gate)
}

fn side_name(side: Side) -> &'static str {
    match side {
        Side::Sort => "sort",
        Side::Build => "build",
        Side::Probe => "probe",
    }
}

/// The line of an event.
fn line(alloc: Global, event: &Event) -> Result<String, AllocError> {
    match event {
        Event::Take {
            worker,
            source,
            from,
            count,
        } => format!(in alloc; "worker {worker} takes {count} of node {source} from {from}\n"),
        Event::Mark { worker, join, .. } => format!(in alloc;
            "worker {worker} marks at node {join}\n"
        ),
        Event::Emit { worker } => format!(in alloc; "worker {worker} hands on\n"),
        Event::Done { worker } => format!(in alloc; "worker {worker} is done\n"),
        Event::Close { node, side } => {
            let name = side_name(*side);
            format!(in alloc; "the {name} side of node {node} is closed\n")
        }
        Event::Flush { worker, join, part } => {
            format!(in alloc; "worker {worker} flushes {part} of node {join}\n")
        }
    }
}

/// The lines of a journal.
pub(crate) fn lines(alloc: Global, answer: &RunAnswer) -> Result<String, AllocError> {
    let mut lines = String::new(alloc);
    for event in answer.journal.events.as_slice() {
        lines.push_str(line(alloc, event)?.as_str())?;
    }
    Ok(lines)
}

/// How often a worker took or flushed something.
pub(crate) fn taken_by(answer: &RunAnswer, wanted: u32) -> u64 {
    let mut count = 0_u64;
    for event in answer.journal.events.as_slice() {
        match event {
            Event::Take { worker, .. } if *worker == wanted => count = count.saturating_add(1),
            Event::Flush { worker, .. } if *worker == wanted => count = count.saturating_add(1),
            _ => {}
        }
    }
    count
}
