//! Lists of events as they are written.

use pipe_events::{Event, Side};
use pipe_frame::Row;
use std::alloc::{AllocError, Global};
use worked_columns::{INT, cell_of};

/// A list of events over the plan of a job for the job's workers, and what it shows.
#[derive(Clone, Copy)]
pub(crate) struct WrittenList<'a> {
    pub(crate) shows: &'a str,
    pub(crate) events: &'a str,
    pub(crate) job: &'a str,
}

/// The words of each event of a list.
pub(crate) fn pieces_of<'a>(alloc: Global, events: &'a str) -> Result<Vec<&'a str>, AllocError> {
    let mut pieces = Vec::new(alloc);
    for piece in events.split("; ") {
        pieces.push(piece)?;
    }
    Ok(pieces)
}

/// The number at a place among some words, 0 where there is none.
fn number_at(words: &str, place: usize) -> u32 {
    match words.split_whitespace().nth(place) {
        Some(word) => word.parse::<u32>().unwrap_or(0),
        None => 0,
    }
}

/// The key of some cells.
fn key_of(alloc: Global, cells: &str) -> Result<Row, AllocError> {
    let mut key = Row::new(alloc);
    for cell in cells.split_whitespace() {
        key.push(cell_of(alloc, INT, cell)?)?;
    }
    Ok(key)
}

/// A mark: a worker, a join, and behind the word `key` the cells of a key.
fn mark_of(alloc: Global, words: &str) -> Result<Option<Event>, AllocError> {
    match words.split_once(" key") {
        Some((numbers, cells)) => {
            let worker = number_at(numbers, 0);
            let join = number_at(numbers, 1);
            let key = key_of(alloc, cells)?;
            Ok(Some(Event::Mark { worker, join, key }))
        }
        None => Ok(None),
    }
}

/// A side that is closed: a node, and `build`, `probe` or `sort`.
fn closing_of(words: &str) -> Option<Event> {
    let node = number_at(words, 0);
    match words.split_whitespace().nth(1) {
        Some("build") => Some(Event::Close {
            node,
            side: Side::Build,
        }),
        Some("probe") => Some(Event::Close {
            node,
            side: Side::Probe,
        }),
        Some("sort") => Some(Event::Close {
            node,
            side: Side::Sort,
        }),
        _ => None,
    }
}

/// An event of numbers alone: a take has a worker, a source, a position and a number of rows, and a flush a worker, a join and
/// a partition.
fn plain_of(kind: &str, words: &str) -> Option<Event> {
    let worker = number_at(words, 0);
    match kind {
        "take" => Some(Event::Take {
            worker,
            source: number_at(words, 1),
            from: number_at(words, 2),
            count: number_at(words, 3),
        }),
        "emit" => Some(Event::Emit { worker }),
        "done" => Some(Event::Done { worker }),
        "flush" => Some(Event::Flush {
            worker,
            join: number_at(words, 1),
            part: number_at(words, 2),
        }),
        _ => None,
    }
}

/// The event of some words, none where they write none.
pub(crate) fn event_of(alloc: Global, words: &str) -> Result<Option<Event>, AllocError> {
    match words.split_once(" ") {
        Some(("mark", rest)) => mark_of(alloc, rest),
        Some(("close", rest)) => Ok(closing_of(rest)),
        Some((kind, rest)) => Ok(plain_of(kind, rest)),
        None => Ok(None),
    }
}
