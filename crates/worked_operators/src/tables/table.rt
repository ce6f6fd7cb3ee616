//! The lines of all cases.

ghost use Rattle.worked_operators.specs.Sides.{AreSides};

use crate::sides::{Sides, join_at_root};
use crate::tables::asked::{Asked, asked_by};
use crate::tables::indexes::index_lines;
use crate::tables::joining::{members_of_table, slots_of_table, through_cross, through_table};
use crate::tables::placing::places_of_keys;
use crate::written::{Words, is_job, shown, words_of};
use pipe_check::check_plan;
use pipe_expr::JoinType;
use pipe_plan::{Arena, PipeError};
use pipe_rows::{ConstHash, Fnv, KeyHasher};
use std::alloc::{AllocError, Global};
use worked_texts::job_of;

/// What comes of a join under a hasher: a cross join has its own probe.
fn joined<H: KeyHasher>(
    alloc: Global,
    sides: Sides,
    asks: Asked,
    hasher: H,
) -> Result<String, AllocError>
    requires { AreSides sides }
{
    match asks {
        Asked::Slots => slots_of_table(alloc, sides, hasher),
        Asked::Members => members_of_table(alloc, sides, hasher),
        Asked::Places => places_of_keys(alloc, sides, false),
        Asked::HalfPlaces => places_of_keys(alloc, sides, true),
        Asked::Pieces(0) => String::from_str(alloc, "pieces of no row"),
        Asked::Pieces(rows) => match sides.spec.how {
            JoinType::Cross => through_cross(alloc, sides, rows),
            _ => through_table(alloc, sides, rows, hasher),
        },
    }
}

/// What comes of the join at a plan's root.
fn plan_text(alloc: Global, arena: &Arena, root: u32, words: Words) -> Result<String, AllocError> {
    let checked = match check_plan(alloc, arena, root) {
        Ok(checked) => checked,
        Err(PipeError::Memory) => return Err(AllocError),
        Err(_) => return String::from_str(alloc, "refused"),
    };
    match join_at_root(alloc, &checked)? {
        Some(sides) => match words.hash {
            None => joined(alloc, sides, asked_by(words.how), Fnv),
            Some(value) => joined(alloc, sides, asked_by(words.how), ConstHash { value }),
        },
        None => String::from_str(alloc, "no join of two scans"),
    }
}

/// What comes of the join of a job.
fn job_text(alloc: Global, line: &str, words: Words) -> Result<String, AllocError> {
    match job_of(alloc, line)? {
        Some(job) => plan_text(alloc, &job.arena, job.root, words),
        None => String::from_str(alloc, "no job"),
    }
}

/// Adds the lines of some cases.
fn put_cases(alloc: Global, answers: &mut String, lines: &[&str]) -> Result<(), AllocError> {
    let mut words = words_of("");
    for line in lines {
        if let Some(shows) = shown(line) {
            answers.push_str(shows)?;
        } else if is_job(line) {
            let text = job_text(alloc, line, words)?;
            answers.push_str(format!(in alloc; ": {text}\n")?.as_str())?;
        } else {
            words = words_of(line);
        }
    }
    Ok(())
}

/// The lines of all cases.
pub(crate) fn answers(alloc: Global, lines: &[&str]) -> Result<String, AllocError> {
    let mut answers = String::new(alloc);
    put_cases(alloc, &mut answers, lines)?;
    answers.push_str(index_lines(alloc)?.as_str())?;
    Ok(answers)
}
