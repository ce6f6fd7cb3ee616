//! Lanes on threads: what is the same however they take turns.

ghost use Rattle.std.specs.Prelude.{◌≤◌, length};

use crate::lanes::alone::{push_case, refused_after, times};
use crate::lanes::gates::HoldGate;
use crate::lanes::harness::run_all;
use crate::lanes::repeat::Repeat;
use crate::lanes::told::{cells_text, ending_text};
use pipe_frame::DataFrame;
use pipe_ops::PExecutionContext;
use pipe_schema::{Gate, MeetGate, NeverStop, OpenGate};
use std::alloc::{AllocError, Global};
use std::thread::Threads;
use worked_columns::{INT, frame_of};

/// The rows 1, 2, .., 8.
const EIGHT: &[&str] = &["1", "2", "3", "4", "5", "6", "7", "8"];

/// How lanes over a frame end, how many chunks they took together, and the rows.
fn lanes_lines<R: Threads + Sync, G: Gate + Sync>(
    rt: &R,
    alloc: Global,
    context: &PExecutionContext,
    repeat: Repeat,
    frame: &DataFrame,
    gate: &G,
) -> Result<String, AllocError>
    requires { length frame.now.rows ≤ 1000 }
{
    let mut stop = NeverStop::new();
    let outcome = run_all(rt, alloc, context, &[repeat], frame, &mut stop, gate)?;
    let ending = ending_text(alloc, &outcome.ending)?;
    let takes = outcome.takes;
    let rows = match &outcome.frame {
        Some(frame) => cells_text(alloc, frame)?,
        None => String::from_str(alloc, " none")?,
    };
    format!(in alloc; "{ending}\ntakes: {takes}\nrows:{rows}\n")
}

/// Lanes over some rows, a chunk a row: how they end, how many chunks they took together, and the rows.
fn over_rows<R: Threads + Sync, G: Gate + Sync>(
    rt: &R,
    alloc: Global,
    workers: u32,
    cells: &[&str],
    repeat: Repeat,
    gate: &G,
) -> Result<String, AllocError> {
    if workers == 0 || workers > 256 {
        return String::from_str(alloc, "no workers\n");
    }
    let context = PExecutionContext {
        workers,
        chunk_rows: 1,
        row_limit: 100,
    };
    match frame_of(alloc, &[("k", INT, cells)])? {
        Some(frame) if frame.height() <= 1000 => {
            lanes_lines(rt, alloc, &context, repeat, &frame, gate)
        }
        _ => String::from_str(alloc, "no frame\n"),
    }
}

/// Two lanes that meet at a gate.
fn meeting<R: Threads + Sync>(rt: &R, alloc: Global) -> Result<String, AllocError> {
    let gate = MeetGate::new();
    let lines = over_rows(rt, alloc, 2, &["1", "2"], times(1), &gate)?;
    let met = gate.met();
    format!(in alloc; "{lines}met: {met}\n")
}

/// A lane that is held at its first chunk, while the other takes the other seven.
fn held<R: Threads + Sync>(rt: &R, alloc: Global) -> Result<String, AllocError> {
    let gate = HoldGate::new();
    let lines = over_rows(rt, alloc, 2, EIGHT, times(1), &gate)?;
    let seven = gate.others() >= 7;
    let entries = gate.first().saturating_add(gate.others());
    format!(in alloc; "{lines}the other came seven times: {seven}\nentries: {entries}\n")
}

pub(crate) fn tell<R: Threads + Sync>(
    rt: &R,
    alloc: Global,
    answers: &mut String,
) -> Result<(), AllocError> {
    let lines = over_rows(rt, alloc, 3, EIGHT, times(2), &OpenGate)?;
    push_case(alloc, answers, "three lanes", lines.as_str())?;
    let lines = over_rows(rt, alloc, 256, EIGHT, times(1), &OpenGate)?;
    push_case(alloc, answers, "more lanes than chunks", lines.as_str())?;
    let lines = over_rows(rt, alloc, 2, EIGHT, refused_after(1), &OpenGate)?;
    push_case(
        alloc,
        answers,
        "each of two lanes is refused its second chunk",
        lines.as_str(),
    )?;
    let lines = meeting(rt, alloc)?;
    push_case(alloc, answers, "two lanes meet", lines.as_str())?;
    let lines = held(rt, alloc)?;
    push_case(alloc, answers, "a lane is held", lines.as_str())
}
