//! Works views out: lists of edits, what each adds and takes, and the rows at the end; views that aren't made.

mod cases;
mod played;
mod told;

use std::alloc::{AllocError, Global};

pub(crate) fn answers(alloc: Global) -> Result<String, AllocError> {
    let mut answers = String::new(alloc);
    answers.push_str(cases::first_match(alloc)?.as_str())?;
    answers.push_str(cases::null_and_absent(alloc)?.as_str())?;
    answers.push_str(cases::limit_met(alloc)?.as_str())?;
    answers.push_str(cases::last_match(alloc)?.as_str())?;
    answers.push_str(cases::equal_rows(alloc)?.as_str())?;
    answers.push_str(cases::null_keys(alloc, false)?.as_str())?;
    answers.push_str(cases::null_keys(alloc, true)?.as_str())?;
    answers.push_str(cases::join_too_long(alloc)?.as_str())?;
    answers.push_str(cases::table_too_long(alloc, &["1", "2"])?.as_str())?;
    answers.push_str(cases::table_too_long(alloc, &["1"])?.as_str())?;
    answers.push_str(cases::no_row(alloc)?.as_str())?;
    answers.push_str(cases::other_kind(alloc)?.as_str())?;
    answers.push_str(cases::no_key(alloc)?.as_str())?;
    Ok(answers)
}
