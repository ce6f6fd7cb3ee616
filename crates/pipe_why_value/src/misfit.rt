//! The first place of a value that isn't what a command reads, and what is told of it.

ghost use Rattle.std.specs.Prelude.{◌≡◌, ◌↔◌, None, Some, true, false, IfOk, IfSome, IsUtf8, OnOk};
ghost use Rattle.serde_json.specs.Read.{read as read_text};
ghost use Rattle.pipe_value.specs.View.{view};
ghost use Rattle.pipe_job.specs.Reading.{Reading};
ghost use Rattle.pipe_why_text.specs.Wanted.{Misspells, SpellsJob};
ghost use Rattle.pipe_why_value.specs.Order.{tree_of};
ghost use Rattle.pipe_why_value.specs.Places.{IsTold, TellsInner, whole_want};
ghost use Rattle.pipe_why_value.specs.Telling.{Tells};
ghost use Rattle.pipe_why_value.specs.declared.wrong.Misfit.{Misfit};

use crate::edits::Tables;
use crate::input_kind::InputKind;
use crate::looking::look_at;
use crate::order::tree_of;
use crate::told::push_told;
use crate::walk::Walk;
use crate::wrong::{Misfit, Misfits, Wrong};
use json::Scratch;
use pipe_value::Value;
use pipe_why_text::{Foreign, Want, is_spelled};
use std::alloc::{AllocError, Global};

/// Whether types may be Int128.
fn is_wide(value: &Value) -> bool {
    match value.get("version") {
        Some(version) => version.as_u64() != Some(1),
        None => true,
    }
}

/// What the whole of an input should be.
fn whole_of(kind: InputKind) -> Want
    ensures { result ≡ whole_want kind }
{
    match kind {
        InputKind::Job => Want::Job,
        InputKind::Reconciliation => Want::Foreign(Foreign::Reconciliation),
        InputKind::Edits => Want::Foreign(Foreign::Replay),
    }
}

/// The tables that are edited, where the input is edits of two.
fn tables_of(alloc: Global, value: &Value, kind: InputKind) -> Result<Tables, AllocError> {
    match kind {
        InputKind::Edits => Tables::of(alloc, value),
        InputKind::Job | InputKind::Reconciliation => Ok(Tables::none(alloc)),
    }
}

/// Whether a value that should be a job is one.
fn is_good_job(alloc: Global, value: &Value, kind: InputKind) -> Result<bool, AllocError>
    ensures no { IfOk result (λ holds.
        holds ≡ false → kind ≡ InputKind.Job → Misspells Want.Job (view value.now)) }
    ensures yes { IfOk result (λ holds. holds ≡ true → SpellsJob (view value.now)) }
{
    match kind {
        InputKind::Job => is_spelled(alloc, Want::Job, value),
        InputKind::Reconciliation | InputKind::Edits => Ok(false),
    }
}

/// The places of the value that a text reads as at which something else stands than may in an input of a kind.
pub fn misfits_of(
    alloc: Global,
    text: &str,
    value: &Value,
    kind: InputKind,
) -> Result<Misfits, AllocError>
    requires { read_text text.now ≡ Some (view value.now) }
    ensures told { IfOk result (λ misfits.
        IfSome misfits.first (IsTold (whole_want kind, view value.now, tree_of text.now))) }
    ensures innermost { IfOk result (λ misfits.
        IfSome misfits.first (TellsInner (whole_want kind, view value.now, tree_of text.now))) }
    ensures none { IfOk result (λ misfits.
        kind ≡ InputKind.Job → ((misfits.first ≡ None) ↔ SpellsJob (view value.now))) }
{
    if is_good_job(alloc, value, kind)? {
        return Ok(Misfits {
            first: None,
            found: 0,
        });
    }
    let mut scratch = Scratch::new(alloc);
    let tree = tree_of(alloc, text, &mut scratch)?;
    let tables = tables_of(alloc, value, kind)?;
    let mut walk = Walk::new(alloc, is_wide(value), tables);
    look_at(&mut walk, whole_of(kind), value, Some(&tree))?;
    Ok(walk.misfits())
}

/// The first place, and the whole where there is none.
fn first_or_whole(alloc: Global, first: Option<Misfit>, kind: InputKind) -> Misfit
    ensures { (m : Misfit) → first ≡ Some m → result ≡ m }
{
    match first {
        Some(misfit) => misfit,
        None => Misfit {
            steps: Vec::new(alloc),
            wrong: Wrong::Other(whole_of(kind)),
            is_repeated: false,
        },
    }
}

/// The text that the bytes are, the empty one where they are none.
fn text_in(bytes: &[u8]) -> &str
    ensures { IsUtf8 bytes.now → result.now ≡ bytes.now }
{
    match simdutf8::compat::from_utf8(bytes) {
        Ok(text) => text,
        Err(_) => "",
    }
}

/// Appends the first place of the bytes at which the value that they read as isn't what an input of a kind is, and how
/// many further ones there are; the whole, where no place tells it.
pub fn push_misfit(
    alloc: Global,
    out: &mut String,
    bytes: &[u8],
    value: &Value,
    kind: InputKind,
) -> Result<(), AllocError>
    requires { Reading bytes.now (view value.now) }
    ensures { OnOk result (kind ≡ InputKind.Job → (SpellsJob (view value.now) → ⊥)
        → Tells (whole_want kind, view value.now, tree_of bytes.now) out.old out.new) }
{
    let text = text_in(bytes);
    let Misfits { first, found } = misfits_of(alloc, text, value, kind)?;
    let misfit = first_or_whole(alloc, first, kind);
    push_told(alloc, out, text, &misfit, found)
}
