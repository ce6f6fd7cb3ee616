//! The lines of edits.

ghost use Rattle.std.specs.Prelude.{◌≡◌, ◌++◌, OnOk, decimal};
ghost use Rattle.pipe_view.specs.EditLines.{absent_line, edit_line, outcome_line, outcome_lines};

use crate::row_edit::Outcome;
use itoa::Buffer;
use std::alloc::AllocError;

/// Appends a number.
fn push_number(out: &mut Vec<u8>, n: usize) -> Result<(), AllocError>
    ensures { OnOk result (out.new.items ≡ out.old.items ++ decimal n) }
{
    let mut buffer = Buffer::new();
    out.extend_from_slice(buffer.format(n).as_bytes())
}

/// Appends the line of an edit that was made.
#[tactic(auto, using(crate::proofs::Texts::edit_written))]
fn push_edit_line(
    out: &mut Vec<u8>,
    number: usize,
    plus: usize,
    minus: usize,
) -> Result<(), AllocError>
    ensures { OnOk result (out.new.items ≡ out.old.items ++ edit_line number plus minus) }
{
    out.extend_from_slice(b"[\"edit\",")?;
    push_number(out, number)?;
    out.extend_from_slice(b",")?;
    push_number(out, plus)?;
    out.extend_from_slice(b",")?;
    push_number(out, minus)?;
    out.extend_from_slice(b"]\n")
}

/// Appends the line of an edit that found no row to take out.
#[tactic(auto, using(crate::proofs::Texts::absent_written))]
fn push_absent_line(out: &mut Vec<u8>, number: usize) -> Result<(), AllocError>
    ensures { OnOk result (out.new.items ≡ out.old.items ++ absent_line number) }
{
    out.extend_from_slice(b"[\"absent\",")?;
    push_number(out, number)?;
    out.extend_from_slice(b"]\n")
}

/// Appends the line of an edit.
fn push_outcome(out: &mut Vec<u8>, number: usize, outcome: Outcome) -> Result<(), AllocError>
    ensures { OnOk result (out.new.items ≡ out.old.items ++ outcome_line number outcome) }
{
    match outcome {
        Outcome::Changed(plus, minus) => push_edit_line(out, number, plus, minus),
        Outcome::Absent => push_absent_line(out, number),
    }
}

/// Appends the lines of edits, numbered from 0. After an error, a part of them may stand there.
pub fn push_outcomes(out: &mut Vec<u8>, outcomes: &[Outcome]) -> Result<(), AllocError>
    ensures { OnOk result (out.new.items ≡ out.old.items ++ outcome_lines 0 outcomes.now) }
{
    for number in 0..outcomes.len() {
        push_outcome(out, number, outcomes[number])?;
    }
    Ok(())
}
