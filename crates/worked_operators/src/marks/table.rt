//! The lines of all cases.

ghost use Rattle.std.specs.Prelude.{◌≡◌, ◌<◌};
ghost use Rattle.worked_operators.specs.Sides.{AreSides};

use crate::marks::full::through_full;
use crate::marks::marking::through_marks;
use crate::sides::{Sides, join_at_root};
use crate::written::{Words, is_job, shown, words_of};
use pipe_check::check_plan;
use pipe_expr::JoinType;
use pipe_index::HashesKeys;
use pipe_plan::{Arena, PipeError};
use pipe_rows::{ConstHash, Fnv};
use std::alloc::{AllocError, Global};
use worked_texts::job_of;

/// What comes of a join under a hasher.
fn joined<H: HashesKeys>(
    alloc: Global,
    sides: Sides,
    whole: bool,
    rows: u32,
    hasher: H,
) -> Result<String, AllocError>
    requires sides { AreSides sides }
    requires rows { 0 < rows }
{
    match sides.spec.how {
        JoinType::Full => through_full(alloc, sides, whole, rows, hasher),
        _ => through_marks(alloc, sides, whole, rows, hasher),
    }
}

/// What comes of the join at a plan's root, in pieces of so many rows.
fn plan_text(
    alloc: Global,
    arena: &Arena,
    root: u32,
    words: Words,
    rows: u32,
) -> Result<String, AllocError>
    requires { 0 < rows }
{
    let checked = match check_plan(alloc, arena, root) {
        Ok(checked) => checked,
        Err(PipeError::Memory) => return Err(AllocError),
        Err(_) => return String::from_str(alloc, "refused"),
    };
    let whole = words.how == "whole";
    match join_at_root(alloc, &checked)? {
        Some(sides) => match words.hash {
            None => joined(alloc, sides, whole, rows, Fnv),
            Some(value) => joined(alloc, sides, whole, rows, ConstHash { value }),
        },
        None => String::from_str(alloc, "no join of two scans"),
    }
}

/// What comes of the join of a job, in pieces of so many rows.
fn job_text(alloc: Global, line: &str, words: Words, rows: u32) -> Result<String, AllocError>
    requires { 0 < rows }
{
    match job_of(alloc, line)? {
        Some(job) => plan_text(alloc, &job.arena, job.root, words, rows),
        None => String::from_str(alloc, "no job"),
    }
}

/// Adds the lines of some cases, in pieces of so many rows. The probed rows are one chunk by the word `whole`, and else each
/// is one.
fn put_cases(
    alloc: Global,
    answers: &mut String,
    lines: &[&str],
    rows: u32,
) -> Result<(), AllocError>
    requires { 0 < rows }
{
    let mut words = words_of("");
    for line in lines {
        if let Some(shows) = shown(line) {
            answers.push_str(shows)?;
        } else if is_job(line) {
            let text = job_text(alloc, line, words, rows)?;
            answers.push_str(format!(in alloc; ": {text}\n")?.as_str())?;
        } else {
            words = words_of(line);
        }
    }
    Ok(())
}

/// The lines of all cases: those in pieces of two rows, and those in pieces of one.
pub(crate) fn answers(alloc: Global, pairs: &[&str], rows: &[&str]) -> Result<String, AllocError> {
    let mut answers = String::new(alloc);
    put_cases(alloc, &mut answers, pairs, 2)?;
    put_cases(alloc, &mut answers, rows, 1)?;
    Ok(answers)
}
