//! How outcomes are told.

use pipe_frame::DataFrame;
use pipe_run::{Entry, Halt, LaneFault, Note};
use pipe_schema::AnyValue;
use std::alloc::{AllocError, Global};

/// The words for how lanes ended.
pub(crate) fn ending_text(alloc: Global, ending: &Result<(), Halt>) -> Result<String, AllocError> {
    match ending {
        Ok(()) => String::from_str(alloc, "all rows"),
        Err(Halt::Stopped) => String::from_str(alloc, "stopped"),
        Err(Halt::Refused(LaneFault::Memory)) => String::from_str(alloc, "memory"),
        Err(Halt::Refused(LaneFault::TooMany(node))) => {
            format!(in alloc; "too many rows of node {node}")
        }
    }
}

/// Puts an entry of a lane behind others.
fn push_entry(text: &mut String, alloc: Global, entry: &Entry) -> Result<(), AllocError> {
    let word = match entry {
        Entry::Take { part, from, count } => format!(in alloc; " take {part} {from} {count}")?,
        Entry::Flush { part } => format!(in alloc; " flush {part}")?,
        Entry::Done => String::from_str(alloc, " done")?,
    };
    text.push_str(word.as_str())
}

/// What the first lane noted, in the rounds that ended well and then in the one that didn't.
pub(crate) fn entries_text(
    alloc: Global,
    notes: &[Note],
    kept: &[Entry],
) -> Result<String, AllocError> {
    let mut text = String::new(alloc);
    for note in notes {
        if note.worker == 0 {
            push_entry(&mut text, alloc, &note.entry)?;
        }
    }
    for entry in kept {
        push_entry(&mut text, alloc, entry)?;
    }
    Ok(text)
}

/// 1 where a chunk was taken.
fn takes_by(entry: &Entry) -> u64 {
    if matches!(entry, Entry::Take { .. }) {
        1
    } else {
        0
    }
}

/// How many chunks were taken, by what all lanes noted in the rounds that ended well.
pub(crate) fn takes_noted(notes: &[Note]) -> u64 {
    let mut takes = 0u64;
    for note in notes {
        takes = takes.saturating_add(takes_by(&note.entry));
    }
    takes
}

/// How many chunks a lane took, by what it keeps of a round that didn't.
pub(crate) fn takes_kept(entries: &[Entry]) -> u64 {
    let mut takes = 0u64;
    for entry in entries {
        takes = takes.saturating_add(takes_by(entry));
    }
    takes
}

/// The cells of the first column.
pub(crate) fn cells_text(alloc: Global, frame: &DataFrame) -> Result<String, AllocError> {
    let mut text = String::new(alloc);
    let columns = frame.get_columns();
    let Some(column) = columns.first() else {
        return Ok(text);
    };
    for i in 0..column.len() {
        let word = match column.get(i)? {
            AnyValue::Int64(x) => format!(in alloc; " {x}")?,
            _ => String::from_str(alloc, " -")?,
        };
        text.push_str(word.as_str())?;
    }
    Ok(text)
}
