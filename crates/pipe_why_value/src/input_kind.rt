//! What commands read, told apart by its members.

ghost use Rattle.std.specs.Prelude.{◌≡◌};
ghost use Rattle.pipe_value.specs.View.{view};
ghost use Rattle.pipe_why_value.specs.Places.{has_member, kind_of};

use pipe_value::Value;

/// The kinds of inputs that commands read.
#[derive(Clone, Copy)]
pub enum InputKind {
    /// Frames and a plan, which `run` reads.
    Job,
    /// Two tables and a key, which `reconcile` reads.
    Reconciliation,
    /// Two tables, their join and edits of them, which `replay-edits` reads.
    Edits,
}

/// Whether a value has a member.
fn has(value: &Value, name: &str) -> bool
    ensures { result ≡ has_member name.now (view value.now) }
{
    value.get(name).is_some()
}

impl InputKind {
    /// What a value is by its members: a job wherever it has a plan, or no member that a job hasn't.
    pub fn of(value: &Value) -> InputKind
        ensures { result ≡ kind_of (view value.now) }
    {
        if has(value, "plan") {
            return InputKind::Job;
        }
        if has(value, "edits") || has(value, "join") {
            return InputKind::Edits;
        }
        if has(value, "on") || has(value, "join_nulls") {
            return InputKind::Reconciliation;
        }
        InputKind::Job
    }

    /// The member by which such a value is told from a job.
    pub fn own_member(self, value: &Value) -> &'static str {
        match self {
            InputKind::Job => "plan",
            InputKind::Reconciliation => if has(value, "on") { "on" } else { "join_nulls" },
            InputKind::Edits => if has(value, "edits") { "edits" } else { "join" },
        }
    }
}
