//! The lists, in the order in which they are read: a line of what a list shows, one of its events, and one of its job.

use crate::events::answer::{tell, tell_damaged};
use crate::events::calls::{Telling, tell_list};
use crate::events::written::WrittenList;
use std::alloc::{AllocError, Global};

/// Appends what a list shows, and its answer: a word before its events says how it is told, where it isn't played.
fn tell_written(alloc: Global, answers: &mut String, list: WrittenList) -> Result<(), AllocError> {
    match list.events.split_once(": ") {
        Some(("damaged", events)) => tell_damaged(alloc, answers, WrittenList { events, ..list }),
        Some(("replayed", events)) => {
            let list = WrittenList { events, ..list };
            tell_list(alloc, answers, list, Telling::Replayed)
        }
        Some((_, events)) => {
            let list = WrittenList { events, ..list };
            tell_list(alloc, answers, list, Telling::Stepped)
        }
        None => tell(alloc, answers, list),
    }
}

/// Appends what a list of three lines shows, and its answer.
fn tell_lines(alloc: Global, answers: &mut String, lines: &str) -> Result<(), AllocError> {
    let (shows, lines) = lines.split_once('\n').unwrap_or((lines, ""));
    let (events, job) = lines.split_once('\n').unwrap_or((lines, ""));
    let list = WrittenList { shows, events, job };
    tell_written(alloc, answers, list)
}

/// What each list of a text shows, and its answer.
pub(crate) fn answers(alloc: Global, text: &str) -> Result<String, AllocError> {
    let mut answers = String::new(alloc);
    let lists = text.strip_prefix("# ").unwrap_or(text);
    for lines in lists.split("\n# ") {
        tell_lines(alloc, &mut answers, lines)?;
    }
    Ok(answers)
}
