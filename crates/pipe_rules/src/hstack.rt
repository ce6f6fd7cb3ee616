//! Conjuncts on an extension by the columns of expressions.

ghost use Rattle.std.specs.Prelude.{◌≡◌, map, IfOk};
ghost use Rattle.pipe_expr.specs.Formula.{formula_of, named_formula_of};
ghost use Rattle.pipe_expr.specs.Projections.{expr_named};
ghost use Rattle.pipe_rules.specs.Placing.{below_hstack, is_replacing};
ghost use Rattle.pipe_rules.specs.Placements.{placing_of};

use crate::passage::{Passage, place_each};
use crate::placement::Placement;
use crate::reading::{NameTest, reads_only};
use pipe_check::NameIndex;
use pipe_expr::{Expr, NamedExpr};
use pipe_schema::{List, Schema, Text};
use std::alloc::{AllocError, Global};

/// Whether an expression stands under a name.
#[tactic(auto, using(crate::proofs::Named::named_rules))]
fn is_replaced(exprs: &NameIndex<NamedExpr>, name: &Text) -> bool
    ensures { result ≡ is_replacing (expr_named (map named_formula_of exprs.now) name.now) }
{
    match exprs.first(name) {
        Some(_) => true,
        None => false,
    }
}

/// The columns of an input, and the expressions that may replace them.
#[derive(Drop)]
struct Extended<'a> {
    input: &'a Schema,
    exprs: NameIndex<'a, NamedExpr>,
}

impl<'a> NameTest for Extended<'a> {
    ghost use Rattle.std.specs.Prelude.{map};
    ghost use Rattle.pipe_expr.specs.Formula.{named_formula_of};
    ghost use Rattle.pipe_rules.specs.Placing.{is_passed_on};

    ghost passes = { λ e. is_passed_on e.input.now (map named_formula_of e.exprs) };

    fn passes(&self, name: &Text) -> bool {
        self.input.index_of(name.as_bytes()).is_some() && !is_replaced(&self.exprs, name)
    }
}

impl<'a> Passage for Extended<'a> {
    ghost use Rattle.std.specs.Prelude.{map};
    ghost use Rattle.pipe_expr.specs.Formula.{named_formula_of};
    ghost use Rattle.pipe_rules.specs.Placing.{below_hstack};

    ghost placing = { λ e. below_hstack e.input.now (map named_formula_of e.exprs) };

    fn place(&self, _alloc: Global, conjunct: Expr) -> Result<Placement, AllocError> {
        Ok(through_hstack(self, conjunct))
    }
}

/// Where a conjunct on an extension goes: onto the input, where each column that it reads is an input's column that
/// isn't replaced.
#[tactic(auto, using(crate::proofs::Placings::placing_rules))]
fn through_hstack(extended: &Extended, conjunct: Expr) -> Placement
    ensures { placing_of result
        ≡ below_hstack extended.now.input.now (map named_formula_of extended.now.exprs) (formula_of conjunct) }
{
    if reads_only(&conjunct, extended) {
        Placement::OnInputs(conjunct)
    } else {
        Placement::Above(conjunct)
    }
}

/// Where conjuncts on an extension go.
pub(crate) fn place_on_hstack<'a>(
    alloc: Global,
    input: &'a Schema,
    exprs: &'a [NamedExpr],
    conjuncts: List<Expr>,
) -> Result<List<Placement>, AllocError>
    ensures { IfOk result (λ placements. map placing_of placements
        ≡ map (below_hstack input.now (map named_formula_of exprs.now)) (map formula_of conjuncts)) }
{
    let exprs = NameIndex::of(alloc, exprs)?;
    let extended = Extended { input, exprs };
    Ok(place_each(alloc, &extended, conjuncts)?)
}
