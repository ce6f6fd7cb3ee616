//! Joins as values.

ghost use Rattle.std.specs.Prelude.{◌≡◌, ⊤, IfOk, OnOk};
ghost use Rattle.std.specs.List.{AllByRecursion};
ghost use Rattle.pipe_expr.specs.Formula.{formulas_of};
ghost use Rattle.pipe_plan.specs.Node.{Join};
ghost use Rattle.pipe_value.specs.View.{view, members_view};
ghost use Rattle.pipe_job.specs.NodeSpelling.{Fits32, HintFits, coalesce_spelling, hint_spelling, how_spelling, join_back, join_spelling};
ghost use Rattle.pipe_spell.specs.Ranges.{FormulaInRange, NodeInRange};

use crate::lists::couple;
use crate::object::Object;
use crate::spell::Spell;
use pipe_expr::{Expr, JoinCoalesce, JoinType};
use pipe_plan::{JoinOptions, RowsHint};
use pipe_schema::List;
use pipe_value::Value;
use std::alloc::{AllocError, Global};

impl Spell for JoinType {
    ghost spelling = { how_spelling };

    ghost fits = { λ _. ⊤ };

    fn spell(&self, alloc: Global) -> Result<Value, AllocError> {
        let word = match self {
            JoinType::Inner => "inner",
            JoinType::Left => "left",
            JoinType::Full => "full",
            JoinType::Cross => "cross",
            JoinType::Semi => "semi",
            JoinType::Anti => "anti",
        };
        Ok(Value::String(String::from_str(alloc, word)?))
    }
}

impl Spell for JoinCoalesce {
    ghost spelling = { coalesce_spelling };

    ghost fits = { λ _. ⊤ };

    fn spell(&self, alloc: Global) -> Result<Value, AllocError> {
        let word = match self {
            JoinCoalesce::JoinSpecific => "JoinSpecific",
            JoinCoalesce::CoalesceColumns => "CoalesceColumns",
            JoinCoalesce::KeepColumns => "KeepColumns",
        };
        Ok(Value::String(String::from_str(alloc, word)?))
    }
}

impl Spell for RowsHint {
    ghost spelling = { hint_spelling };

    ghost fits = { HintFits };

    fn spell(&self, alloc: Global) -> Result<Value, AllocError> {
        let known = self.known.spell(alloc)?;
        let estimate = self.estimate.spell(alloc)?;
        couple(alloc, known, estimate)
    }
}

/// The members of a join from its right side on.
#[tactic(auto, using(pipe_job::proofs::Formulas::formula_lists, crate::proofs::RangeLists::range_lists))]
fn join_back(
    alloc: Global,
    right: u32,
    right_on: &List<Expr>,
    options: &JoinOptions,
) -> Result<Object, AllocError>
    ensures spelled { IfOk result (λ made. members_view made.members.entries
        ≡ join_back right (formulas_of right_on.now) options.now.rows_left options.now.rows_right
        options.now.suffix) }
    ensures fits { OnOk result (Fits32 right × AllByRecursion FormulaInRange (formulas_of right_on.now)
        × HintFits options.now.rows_left × HintFits options.now.rows_right) }
{
    let mut object = Object::new(alloc);
    object.field(alloc, "suffix", &options.suffix)?;
    object.field(alloc, "rows_right", &options.rows_right)?;
    object.field(alloc, "rows_left", &options.rows_left)?;
    object.field(alloc, "right_on", right_on)?;
    object.field(alloc, "right", &right)?;
    Ok(object)
}

/// The value that spells a join.
#[tactic(auto, using(pipe_job::proofs::Formulas::formula_lists, crate::proofs::RangeLists::range_lists))]
pub(crate) fn join_value(
    alloc: Global,
    left: u32,
    right: u32,
    left_on: &List<Expr>,
    right_on: &List<Expr>,
    options: &JoinOptions,
) -> Result<Value, AllocError>
    ensures spelled { IfOk result (λ value. view value ≡ join_spelling left right
        (formulas_of left_on.now) (formulas_of right_on.now) options.now) }
    ensures fits { OnOk result (NodeInRange
        (Join left right (formulas_of left_on.now) (formulas_of right_on.now) options.now)) }
{
    let mut object = join_back(alloc, right, right_on, options)?;
    object.word(alloc, "node", "Join")?;
    object.field(alloc, "left_on", left_on)?;
    object.field(alloc, "left", &left)?;
    object.field(alloc, "join_nulls", &options.join_nulls)?;
    object.field(alloc, "how", &options.how)?;
    object.field(alloc, "coalesce", &options.coalesce)?;
    Ok(object.into_value())
}
