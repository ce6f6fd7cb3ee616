//! Words that are the numbers of a self-test, and words that aren't.

use pipe_selftest::{rows_in, start_in};
use std::alloc::{AllocError, Global};

const STARTS: &[&str] = &[
    "0",
    "7",
    "007",
    "18446744073709551615",
    "18446744073709551616",
    "00000000000000000007",
    "000000000000000000007",
    "+7",
    "-7",
    "7 ",
    "",
    "x",
];

const ROWS: &[&str] = &[
    "0",
    "1",
    "1000000",
    "1000001",
    "00000000000001000000",
    "18446744073709551617",
    "+1",
    "1.0",
    "",
];

fn tell_start(alloc: Global, answers: &mut String, word: &str) -> Result<(), AllocError> {
    let line = match start_in(word) {
        Some(start) => format!(in alloc; "start \"{word}\": {start}\n")?,
        None => format!(in alloc; "start \"{word}\": bad\n")?,
    };
    answers.push_str(line.as_str())
}

fn tell_rows(alloc: Global, answers: &mut String, word: &str) -> Result<(), AllocError> {
    let line = match rows_in(word) {
        Some(rows) => format!(in alloc; "rows \"{word}\": {rows}\n")?,
        None => format!(in alloc; "rows \"{word}\": bad\n")?,
    };
    answers.push_str(line.as_str())
}

pub(crate) fn tell(alloc: Global, answers: &mut String) -> Result<(), AllocError> {
    for word in STARTS {
        tell_start(alloc, answers, word)?;
    }
    for word in ROWS {
        tell_rows(alloc, answers, word)?;
    }
    Ok(())
}
