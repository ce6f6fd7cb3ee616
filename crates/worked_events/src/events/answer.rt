//! The answer to a list of events.

ghost use Rattle.pipe_replay.specs.KeptWorld.{IsOf};

use crate::events::written::{WrittenList, event_of, pieces_of};
use pipe_check::{CheckedPlan, check_plan};
use pipe_events::Event;
use pipe_frame::Row;
use pipe_plan::PipeError;
use pipe_replay::{Played, World, play};
use pipe_rows::Fnv;
use pipe_schema::{AnyValue, List};
use std::alloc::{AllocError, Global};
use worked_texts::job_of;

/// What is done to a list at a place.
#[derive(Clone, Copy)]
pub(crate) enum Damage {
    /// Nothing.
    Whole,
    /// The event is left out.
    Without(usize),
    /// It stands twice.
    Twice(usize),
    /// It stands after the next one.
    Swapped(usize),
}

// ---- the text of rows

fn push_cell(alloc: Global, text: &mut String, cell: &AnyValue) -> Result<(), AllocError> {
    match cell {
        AnyValue::Int64(x) => text.push_str(format!(in alloc; "{x}")?.as_str()),
        AnyValue::Null => text.push_str("null"),
        _ => text.push_str("another type"),
    }
}

fn push_row(alloc: Global, text: &mut String, row: &Row) -> Result<(), AllocError> {
    text.push_str(" (")?;
    for (i, cell) in row.as_slice().iter().enumerate() {
        if i > 0 {
            text.push_str(",")?;
        }
        push_cell(alloc, text, cell)?;
    }
    text.push_str(")")
}

/// Appends whether all was done that a plan's world needs, and the rows of its root.
pub(crate) fn push_end(
    alloc: Global,
    text: &mut String,
    plan: &CheckedPlan,
    world: &World,
) -> Result<(), AllocError>
    requires { IsOf plan.now world.now }
{
    text.push_str(if world.is_complete(plan) {
        "complete"
    } else {
        "incomplete"
    })?;
    for row in world.root_bag() {
        push_row(alloc, text, row)?;
    }
    text.push_str("\n")
}

// ---- lists of events

fn push_event(
    alloc: Global,
    events: &mut List<Event>,
    written: &[&str],
    i: usize,
) -> Result<(), AllocError> {
    let Some(words) = written.get(i) else {
        return Ok(());
    };
    match event_of(alloc, words)? {
        Some(event) => events.push(event),
        None => Ok(()),
    }
}

/// Adds the events that stand at a place of a damaged list.
fn push_place(
    alloc: Global,
    events: &mut List<Event>,
    written: &[&str],
    damage: Damage,
    i: usize,
) -> Result<(), AllocError> {
    match damage {
        Damage::Without(k) if k == i => Ok(()),
        Damage::Twice(k) if k == i => {
            push_event(alloc, events, written, i)?;
            push_event(alloc, events, written, i)
        }
        Damage::Swapped(k) if k == i => push_event(alloc, events, written, i.saturating_add(1)),
        Damage::Swapped(k) if i.saturating_sub(1) == k => push_event(alloc, events, written, k),
        _ => push_event(alloc, events, written, i),
    }
}

pub(crate) fn events_of(
    alloc: Global,
    written: &str,
    damage: Damage,
) -> Result<List<Event>, AllocError> {
    let pieces = pieces_of(alloc, written)?;
    let mut events = List::new(alloc);
    for i in 0..pieces.len() {
        push_place(alloc, &mut events, pieces.as_slice(), damage, i)?;
    }
    Ok(events)
}

// ---- answers

/// Plays events, and appends the first that isn't allowed, or the end that the world stands at.
fn tell_events(
    alloc: Global,
    answers: &mut String,
    plan: &CheckedPlan,
    workers: u32,
    events: &[Event],
) -> Result<(), AllocError> {
    if workers > 256 {
        return answers.push_str("too many workers\n");
    }
    let Played { world, count } = play(alloc, plan, &Fnv, workers, events)?;
    if count < events.len() {
        answers.push_str(format!(in alloc; "refused {count}\n")?.as_str())
    } else {
        push_end(alloc, answers, plan, &world)
    }
}

/// Appends what a list shows.
pub(crate) fn push_shown(answers: &mut String, list: WrittenList) -> Result<(), AllocError> {
    answers.push_str("# ")?;
    answers.push_str(list.shows)?;
    answers.push_str("\n")
}

/// Plays a list, and appends what it shows and its answer.
pub(crate) fn tell(
    alloc: Global,
    answers: &mut String,
    list: WrittenList,
) -> Result<(), AllocError> {
    push_shown(answers, list)?;
    tell_at(alloc, answers, list, Damage::Whole)
}

/// Plays a list, damaged or not, and appends its answer.
fn tell_at(
    alloc: Global,
    answers: &mut String,
    list: WrittenList,
    damage: Damage,
) -> Result<(), AllocError> {
    let Some(job) = job_of(alloc, list.job)? else {
        return answers.push_str("no job\n");
    };
    let events = events_of(alloc, list.events, damage)?;
    match check_plan(alloc, &job.arena, job.root) {
        Ok(plan) => tell_events(alloc, answers, &plan, job.config.workers, events.as_slice()),
        Err(PipeError::Memory) => Err(AllocError),
        Err(_) => answers.push_str("fault\n"),
    }
}

fn tell_place(
    alloc: Global,
    answers: &mut String,
    list: WrittenList,
    word: &str,
    damage: Damage,
    i: usize,
) -> Result<(), AllocError> {
    answers.push_str(format!(in alloc; "{word} {i}: ")?.as_str())?;
    tell_at(alloc, answers, list, damage)
}

/// Appends what a list shows and its answer, and those of the list with one event left out, with one twice, and with
/// two neighbours swapped, for each place.
pub(crate) fn tell_damaged(
    alloc: Global,
    answers: &mut String,
    list: WrittenList,
) -> Result<(), AllocError> {
    tell(alloc, answers, list)?;
    let count = pieces_of(alloc, list.events)?.len();
    for i in 0..count {
        tell_place(alloc, answers, list, "without", Damage::Without(i), i)?;
    }
    for i in 0..count {
        tell_place(alloc, answers, list, "twice", Damage::Twice(i), i)?;
    }
    for i in 1..count {
        tell_place(
            alloc,
            answers,
            list,
            "swapped",
            Damage::Swapped(i - 1),
            i - 1,
        )?;
    }
    Ok(())
}
