//! The cases, in the order in which they are told.

use crate::reading::{frames, held, lines, nodes, parts, reading};
use crate::told::tell;
use std::alloc::{AllocError, Global};

fn tell_texts(a: Global, answers: &mut String) -> Result<(), AllocError> {
    tell(answers, "a reader with files")?;
    answers.push_str(held::by_a_reader(a)?.as_str())?;
    tell(answers, "a reader whose first call fails")?;
    answers.push_str(held::by_a_reader_that_fails_once(a)?.as_str())?;
    tell(answers, "a sure reader with files")?;
    answers.push_str(held::by_a_sure_reader(a)?.as_str())?;
    tell(answers, "a sure writer with room for 5 bytes")?;
    answers.push_str(held::by_a_sure_writer(a)?.as_str())
}

fn tell_read(a: Global, answers: &mut String) -> Result<(), AllocError> {
    tell(answers, "the parts of a job")?;
    answers.push_str(parts::of_a_sorted_join(a)?.as_str())?;
    tell(answers, "the lines of a frame")?;
    answers.push_str(lines::at_the_edges(a)?.as_str())?;
    tell(answers, "the lines of a frame of Int128")?;
    answers.push_str(lines::of_int128(a)?.as_str())?;
    tell(answers, "the lines of a frame of long columns")?;
    answers.push_str(lines::of_long_columns(a)?.as_str())?;
    tell(answers, "jobs")?;
    reading::tell_ends(a, answers)?;
    reading::tell_no_jobs(a, answers)?;
    tell(answers, "nodes")?;
    nodes::tell_nodes(a, answers)?;
    tell(answers, "frames")?;
    frames::tell_frames(a, answers)?;
    tell(answers, "cells of Int128")?;
    frames::tell_int128(a, answers)?;
    tell(answers, "literals of Int128")?;
    nodes::tell_int128(a, answers)
}

/// What each case over memory shows, and its answer.
pub(crate) fn answers(alloc: Global) -> Result<String, AllocError> {
    let mut answers = String::new(alloc);
    tell_texts(alloc, &mut answers)?;
    tell_read(alloc, &mut answers)?;
    Ok(answers)
}
