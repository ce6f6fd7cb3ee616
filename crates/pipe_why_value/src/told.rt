//! What is told of a place at which something else stands than may: where it is, what may stand there, and what does.

ghost use Rattle.std.specs.Prelude.{OnOk};
ghost use Rattle.pipe_why_text.specs.Places.{Appends};
ghost use Rattle.pipe_why_value.specs.Telling.{BeginsWithPlace};

use crate::wrong::{Misfit, Wrong};
use pipe_why_text::{
    FORMS, Foreign, Literal, Member, Step, TYPES, Want, offset_of, push_count, push_expected,
    push_hint, push_nearest, push_place, push_quoted, push_steps, push_words, type_word,
};
use std::alloc::{AllocError, Global};
use std::fmt::Write;

/// How many characters of a value are told.
const MOST_CHARS: usize = 60;

/// Appends a value as it stands in the text, cut where it is long.
fn push_found(alloc: Global, out: &mut String, found: Literal<'_>) -> Result<(), AllocError> {
    let front = found.bytes.get(..4 * MOST_CHARS).unwrap_or(found.bytes);
    let text = String::from_utf8_lossy(alloc, front)?;
    out.push_str("found: ")?;
    let mut left = MOST_CHARS;
    for ch in text.chars() {
        if left == 0 {
            return out.push_str("..\n");
        }
        left -= 1;
        out.push(if ch < ' ' { ' ' } else { ch })?;
    }
    out.push_str("\n")
}

/// The name of the member to which the last step leads, none where it leads to an item.
fn last_name(steps: &[Step]) -> &str {
    match steps.last() {
        Some(Step::Member(name)) => name.as_str(),
        _ => "",
    }
}

/// Appends what a place of which something else is wanted should have.
fn push_other(
    alloc: Global,
    out: &mut String,
    want: Want,
    found: Literal<'_>,
) -> Result<(), AllocError> {
    out.push_str("\nexpected: ")?;
    push_expected(out, want)?;
    out.push_str("\n")?;
    push_found(alloc, out, found)?;
    push_hint(alloc, out, want, found)
}

/// Appends that an object lacks a member.
fn push_missing(out: &mut String, name: &str, want: Want) -> Result<(), AllocError> {
    write!(out, " lacks the member \"{name}\"\nexpected: \"{name}\": ")?;
    push_expected(out, want)?;
    out.push_str("\n")
}

/// The names of members.
fn names_of(alloc: Global, members: &[Member]) -> Result<Vec<&'static str>, AllocError> {
    let mut names = Vec::new(alloc);
    for (name, _) in members {
        names.push(*name)?;
    }
    Ok(names)
}

/// Appends that a member isn't one of these.
fn push_unknown(
    alloc: Global,
    out: &mut String,
    name: &str,
    names: &[&str],
) -> Result<(), AllocError> {
    out.push_str(" is no member that may stand there\nexpected: one of ")?;
    push_words(out, names)?;
    out.push_str("\nfound: ")?;
    push_quoted(out, name)?;
    out.push_str("\n")?;
    push_nearest(alloc, out, name, names)
}

/// Appends that a type is none of version 1.
fn push_wide(out: &mut String) -> Result<(), AllocError> {
    out.push_str("\nexpected: one of ")?;
    push_words(out, TYPES.get(..7).unwrap_or(TYPES))?;
    out.push_str("\nfound: \"Int128\"\nhint: version 1 has no Int128: write \"version\":2\n")
}

/// Appends that a row has another count of cells than its table of columns.
fn push_width(out: &mut String, cells: usize, columns: usize) -> Result<(), AllocError> {
    out.push_str("\nexpected: ")?;
    push_count(out, columns, "cell")?;
    out.push_str(", one for each column of the table\nfound: ")?;
    push_count(out, cells, "cell")?;
    out.push_str("\n")
}

/// Appends what is wrong with the columns of a frame.
fn push_table(
    alloc: Global,
    out: &mut String,
    wrong: &Wrong,
    found: Literal<'_>,
) -> Result<(), AllocError> {
    match wrong {
        Wrong::SecondName(earlier) => {
            out.push_str("\nexpected: a name that no other column of the frame has\n")?;
            push_found(alloc, out, found)?;
            write!(out, "hint: columns[{earlier}] of the frame has this name\n")
        }
        Wrong::Height { cells, wanted } => {
            out.push_str("\nexpected: ")?;
            push_count(out, *wanted, "value")?;
            out.push_str(", as many as other columns of the frame have\nfound: ")?;
            push_count(out, *cells, "value")?;
            out.push_str("\n")
        }
        _ => {
            out.push_str("\nexpected: one or more columns\n")?;
            push_found(alloc, out, found)
        }
    }
}

/// Appends what is wrong at a place.
fn push_wrong(
    alloc: Global,
    out: &mut String,
    misfit: &Misfit,
    found: Literal<'_>,
) -> Result<(), AllocError> {
    let name = last_name(misfit.steps.as_slice());
    match &misfit.wrong {
        Wrong::Other(want) => push_other(alloc, out, *want, found),
        Wrong::Missing(name, want) => push_missing(out, name, *want),
        Wrong::Unknown(known) => {
            let names = names_of(alloc, known)?;
            push_unknown(alloc, out, name, names.as_slice())
        }
        Wrong::UnknownForm => push_unknown(alloc, out, name, FORMS),
        Wrong::Members(count) => {
            out.push_str(" has ")?;
            push_count(out, *count, "member")?;
            push_other(alloc, out, Want::Expr, found)
        }
        Wrong::Cell { dtype, column, .. } => {
            out.push_str(", in the column ")?;
            push_quoted(out, column.as_str())?;
            write!(out, " of type {}", type_word(*dtype))?;
            push_other(alloc, out, Want::Cell(*dtype), found)
        }
        Wrong::Frames(count) => {
            out.push_str(" has ")?;
            push_count(out, *count, "frame")?;
            push_other(alloc, out, Want::Foreign(Foreign::TwoFrames), found)
        }
        Wrong::Parts(_) => push_other(alloc, out, Want::Foreign(Foreign::Edit), found),
        Wrong::Width { cells, columns } => push_width(out, *cells, *columns),
        Wrong::Wide => push_wide(out),
        Wrong::NoColumns | Wrong::SecondName(_) | Wrong::Height { .. } => {
            push_table(alloc, out, &misfit.wrong, found)
        }
    }
}

/// Appends how many further places are wrong.
fn push_further(out: &mut String, found: usize) -> Result<(), AllocError> {
    if 1 < found {
        write!(out, "further places: {}\n", found - 1)?;
    }
    Ok(())
}

/// What is told behind the steps to a place: where that is in the text, what is wrong there, and of how many places
/// with something wrong it is one.
fn told_there(
    alloc: Global,
    text: &str,
    misfit: &Misfit,
    found: usize,
) -> Result<String, AllocError> {
    let at = offset_of(alloc, text, misfit.steps.as_slice())?;
    let bytes = text.as_bytes();
    let mut out = String::new(alloc);
    push_place(&mut out, bytes, at)?;
    out.push_str(")")?;
    push_wrong(alloc, &mut out, misfit, Literal::at(bytes, at))?;
    if misfit.is_repeated {
        out.push_str("hint: a member on the way there stands twice: the last one counts\n")?;
    }
    push_further(&mut out, found)?;
    Ok(out)
}

/// Appends a place of a text, what is wrong there, and of how many such places it is one.
pub(crate) fn push_told(
    alloc: Global,
    out: &mut String,
    text: &str,
    misfit: &Misfit,
    found: usize,
) -> Result<(), AllocError>
    ensures { OnOk result
        (Appends (BeginsWithPlace misfit.now.steps.items) out.old out.new) }
{
    let there = told_there(alloc, text, misfit, found)?;
    push_steps(alloc, out, misfit.steps.as_slice())?;
    out.push_str(" (")?;
    out.push_str(there.as_str())
}
