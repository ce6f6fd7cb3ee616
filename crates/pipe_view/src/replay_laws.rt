//! Laws of the definitions.

ghost use Rattle.std.specs.Prelude.{◌≡◌};
ghost use Rattle.serde_json.specs.Data.{Data};
ghost use Rattle.pipe_plan.specs.declared.error.PipeError.{PipeError};
ghost use Rattle.pipe_view.specs.ReplayEnds.{IsRefusedReplay, IsSoundReplay};
ghost use Rattle.pipe_view.specs.ReplaySpelling.{ReplayTask, Spells};

/// A value spells one view and its edits at most.
pub fn one_replay()
    ensures { (v : Data) (a b : ReplayTask) → Spells v a → Spells v b → a ≡ b }
{}

/// What is played isn't refused, and what is refused is so by one error.
pub fn one_end()
    ensures played { (task : ReplayTask) (e : PipeError)
        → IsSoundReplay task → IsRefusedReplay task e → ⊥ }
    ensures refused { (task : ReplayTask) (d e : PipeError)
        → IsRefusedReplay task d → IsRefusedReplay task e → d ≡ e }
{}
