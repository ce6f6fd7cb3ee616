//! Cases as they are written: lines, of which a plan is a job.

use std::alloc::AllocError;

/// Whether a line says what a case shows.
pub(crate) fn is_shown(line: &str) -> bool {
    line.starts_with("# ")
}

/// The line before that of a place, and no text before the first.
pub(crate) fn line_before<'a>(lines: &[&'a str], place: usize) -> &'a str {
    match lines.get(place.saturating_sub(1)) {
        Some(line) => *line,
        None => "",
    }
}

/// Appends a line.
pub(crate) fn push_line(answers: &mut String, line: &str) -> Result<(), AllocError> {
    answers.push_str(line)?;
    answers.push_str("\n")
}
