//! Joins in JSON.

ghost use Rattle.std.specs.Prelude.{◌≡◌, ⊤};
ghost use Rattle.pipe_value.specs.View.{view, members_view};
ghost use Rattle.pipe_job.specs.Reads.{ReadWhere};
ghost use Rattle.pipe_job.specs.Shape.{is_how, is_coalesce, is_hint, is_join, is_join_back};
ghost use Rattle.pipe_job.specs.NodeSpelling.{how_spelling, coalesce_spelling, hint_spelling, HintFits, IsBack, IsNode};

use crate::members::{Members, two_items};
use crate::misread::Misread;
use crate::spelled::Spelled;
use pipe_expr::{Expr, JoinCoalesce, JoinType};
use pipe_plan::{IR, JoinOptions, RowsHint};
use pipe_schema::{List, Text};
use pipe_value::Value;
use std::alloc::Global;

impl Spelled for JoinType {
    ghost spelling = { how_spelling };

    ghost fits = { λ _. ⊤ };

    ghost shape = { is_how };

    fn read(_alloc: Global, value: &Value) -> Result<JoinType, Misread> {
        match value.as_str() {
            Some("inner") => Ok(JoinType::Inner),
            Some("left") => Ok(JoinType::Left),
            Some("full") => Ok(JoinType::Full),
            Some("cross") => Ok(JoinType::Cross),
            Some("semi") => Ok(JoinType::Semi),
            Some("anti") => Ok(JoinType::Anti),
            _ => Err(Misread::Other),
        }
    }
}

impl Spelled for JoinCoalesce {
    ghost spelling = { coalesce_spelling };

    ghost fits = { λ _. ⊤ };

    ghost shape = { is_coalesce };

    fn read(_alloc: Global, value: &Value) -> Result<JoinCoalesce, Misread> {
        match value.as_str() {
            Some("JoinSpecific") => Ok(JoinCoalesce::JoinSpecific),
            Some("CoalesceColumns") => Ok(JoinCoalesce::CoalesceColumns),
            Some("KeepColumns") => Ok(JoinCoalesce::KeepColumns),
            _ => Err(Misread::Other),
        }
    }
}

impl Spelled for RowsHint {
    ghost spelling = { hint_spelling };

    ghost fits = { HintFits };

    ghost shape = { is_hint };

    fn read(alloc: Global, value: &Value) -> Result<RowsHint, Misread> {
        let (known, estimate) = two_items(alloc, value)?;
        let known = <Option<u64>>::read(alloc, known.value())?;
        let estimate = u64::read(alloc, estimate.value())?;
        Ok(RowsHint { known, estimate })
    }
}

/// What comes of a join from its right side on.
#[derive(Drop)]
struct Back {
    right: u32,
    right_on: List<Expr>,
    rows_left: RowsHint,
    rows_right: RowsHint,
    suffix: Text,
}

/// The last members of a join, from its right side on.
#[tactic(auto, using(crate::proofs::Formulas::formula_lists))]
fn back_of(alloc: Global, members: &mut Members) -> Result<Back, Misread>
    ensures { ReadWhere (is_join_back (members_view members.old.rest))
        (IsBack (members_view members.old.rest)) result }
{
    let right = members.field::<u32>(alloc, "right")?;
    let right_on = members.field::<List<Expr>>(alloc, "right_on")?;
    let rows_left = members.field::<RowsHint>(alloc, "rows_left")?;
    let rows_right = members.field::<RowsHint>(alloc, "rows_right")?;
    let suffix = members.field::<Text>(alloc, "suffix")?;
    members.end()?;
    Ok(Back {
        right,
        right_on,
        rows_left,
        rows_right,
        suffix,
    })
}

/// The join that a value spells.
#[tactic(auto, using(crate::proofs::Shapes::shapes, crate::proofs::Formulas::formula_lists))]
pub(crate) fn join_of(alloc: Global, value: &Value) -> Result<IR, Misread>
    ensures { ReadWhere (is_join (view value.now)) (IsNode (view value.now)) result }
{
    let mut members = Members::of(value)?;
    let coalesce = members.field::<JoinCoalesce>(alloc, "coalesce")?;
    let how = members.field::<JoinType>(alloc, "how")?;
    let join_nulls = members.field::<bool>(alloc, "join_nulls")?;
    let left = members.field::<u32>(alloc, "left")?;
    let left_on = members.field::<List<Expr>>(alloc, "left_on")?;
    members.word("node", "Join")?;
    let Back {
        right,
        right_on,
        rows_left,
        rows_right,
        suffix,
    } = back_of(alloc, &mut members)?;
    let options = JoinOptions {
        how,
        join_nulls,
        coalesce,
        suffix,
        rows_left,
        rows_right,
    };
    Ok(IR::Join {
        left,
        right,
        left_on,
        right_on,
        options,
    })
}
