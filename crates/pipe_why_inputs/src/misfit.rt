//! What is told of a value that spells no job.

ghost use Rattle.std.specs.Prelude.{◌≡◌, IfOk, string_bytes};
ghost use Rattle.pipe_value.specs.View.{view};
ghost use Rattle.pipe_job.specs.Reading.{Reading};
ghost use Rattle.pipe_why_text.specs.Wanted.{SpellsJob};
ghost use Rattle.pipe_why_value.specs.Places.{kind_of};
ghost use Rattle.pipe_why_value.specs.Telling.{TellsNoJob};

use crate::edits::push_edits;
use crate::reconciliation::push_reconciliation;
use pipe_value::Value;
use pipe_why_value::{InputKind, push_misfit};
use std::alloc::{AllocError, Global};
use std::fmt::Write;

/// Appends that a value is no job, but what another command reads.
fn push_other(
    out: &mut String,
    value: &Value,
    kind: InputKind,
    command: &str,
) -> Result<(), AllocError> {
    let member = kind.own_member(value);
    write!(
        out,
        "not a job: it has no plan, but \"{member}\", as what {command} reads\n"
    )
}

/// What is told of the value that a text reads as and that should be a job and spells none.
fn job_text(alloc: Global, bytes: &[u8], value: &Value) -> Result<String, AllocError>
    requires { Reading bytes.now (view value.now) }
    ensures { IfOk result (λ text.
        (SpellsJob (view value.now) → ⊥)
        → TellsNoJob (view value.now) bytes.now (string_bytes text)) }
{
    let mut out = String::new(alloc);
    out.push_str("not a job: ")?;
    push_misfit(alloc, &mut out, bytes, value, InputKind::Job)?;
    Ok(out)
}

/// What is told of the value that a text reads as, of which `reconcile` reads such ones.
fn reconciliation_text(alloc: Global, bytes: &[u8], value: &Value) -> Result<String, AllocError>
    requires { Reading bytes.now (view value.now) }
{
    let mut out = String::new(alloc);
    push_other(&mut out, value, InputKind::Reconciliation, "reconcile")?;
    push_reconciliation(alloc, &mut out, bytes, value)?;
    Ok(out)
}

/// What is told of the value that a text reads as, of which `replay-edits` reads such ones.
fn edits_text(alloc: Global, bytes: &[u8], value: &Value) -> Result<String, AllocError>
    requires { Reading bytes.now (view value.now) }
{
    let mut out = String::new(alloc);
    push_other(&mut out, value, InputKind::Edits, "replay-edits")?;
    push_edits(alloc, &mut out, bytes, value)?;
    Ok(out)
}

/// What is told of the value that a text reads as and that spells no job: the first place that isn't what it should be,
/// or, of what another command reads, that place or its fault there, or what that command will do.
pub fn misfit_text(alloc: Global, bytes: &[u8], value: &Value) -> Result<String, AllocError>
    requires { Reading bytes.now (view value.now) }
    ensures { IfOk result (λ text. kind_of (view value.now) ≡ InputKind.Job
        → (SpellsJob (view value.now) → ⊥)
        → TellsNoJob (view value.now) bytes.now (string_bytes text)) }
{
    match InputKind::of(value) {
        InputKind::Job => job_text(alloc, bytes, value),
        InputKind::Reconciliation => reconciliation_text(alloc, bytes, value),
        InputKind::Edits => edits_text(alloc, bytes, value),
    }
}
