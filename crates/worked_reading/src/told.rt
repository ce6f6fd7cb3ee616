//! How cases are told.

use std::alloc::AllocError;

/// What some bytes say, where they are UTF-8.
pub(crate) fn shown(bytes: &[u8]) -> &str {
    str::from_utf8(bytes).unwrap_or("not UTF-8\n")
}

/// Appends what a case shows.
pub(crate) fn tell(answers: &mut String, shows: &str) -> Result<(), AllocError> {
    answers.push_str("# ")?;
    answers.push_str(shows)?;
    answers.push_str("\n")
}
