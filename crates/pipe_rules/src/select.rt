//! Conjuncts on a projection of one column per expression.

ghost use Rattle.std.specs.Prelude.{◌≡◌, map, IfOk};
ghost use Rattle.std.specs.Option.{option_copied};
ghost use Rattle.pipe_expr.specs.Formula.{formula_of, named_formula_of};
ghost use Rattle.pipe_rules.specs.Placing.{below_select, column_of, plain_column};
ghost use Rattle.pipe_rules.specs.Placements.{placing_of};

use crate::naming::{Naming, with_names};
use crate::passage::{Passage, place_each};
use crate::placement::Placement;
use crate::reading::{NameTest, reads_only};
use pipe_check::NameIndex;
use pipe_expr::{Expr, NamedExpr};
use pipe_schema::{List, Text, TryClone};
use std::alloc::{AllocError, Global};

/// The column that an expression is, if it is one.
fn column(expr: &Expr) -> Option<&Text>
    ensures { option_copied result ≡ column_of (formula_of expr.now) }
{
    match expr {
        Expr::Col(name) => Some(name),
        _ => None,
    }
}

/// The input's column that stands under a name, if it is a plain column there.
#[tactic(auto, using(crate::proofs::Selects::expr_rules))]
fn plain<'a>(exprs: &NameIndex<'a, NamedExpr>, name: &Text) -> Option<&'a Text>
    ensures { option_copied result ≡ plain_column (map named_formula_of exprs.now) name.now }
{
    match exprs.first(name) {
        Some(named) => column(&named.expr),
        None => None,
    }
}

/// The expressions of a projection, by which names are looked up.
#[derive(Drop)]
struct Projected<'a> {
    exprs: NameIndex<'a, NamedExpr>,
}

impl<'a> NameTest for Projected<'a> {
    ghost use Rattle.std.specs.Prelude.{map};
    ghost use Rattle.pipe_expr.specs.Formula.{named_formula_of};
    ghost use Rattle.pipe_rules.specs.Placing.{is_plain};

    ghost passes = { λ p. is_plain (map named_formula_of p.exprs) };

    fn passes(&self, name: &Text) -> bool {
        plain(&self.exprs, name).is_some()
    }
}

impl<'a> Naming for Projected<'a> {
    ghost use Rattle.std.specs.Prelude.{map};
    ghost use Rattle.pipe_expr.specs.Formula.{named_formula_of};
    ghost use Rattle.pipe_rules.specs.Placing.{plain_name};

    ghost name_for = { λ p. plain_name (map named_formula_of p.exprs) };

    fn name_for(&self, name: &Text) -> Result<Text, AllocError> {
        match plain(&self.exprs, name) {
            Some(column) => Ok(column.try_clone()?),
            None => Ok(name.try_clone()?),
        }
    }
}

impl<'a> Passage for Projected<'a> {
    ghost use Rattle.std.specs.Prelude.{map};
    ghost use Rattle.pipe_expr.specs.Formula.{named_formula_of};
    ghost use Rattle.pipe_rules.specs.Placing.{below_select};

    ghost placing = { λ p. below_select (map named_formula_of p.exprs) };

    fn place(&self, alloc: Global, conjunct: Expr) -> Result<Placement, AllocError> {
        through_select(alloc, self, conjunct)
    }
}

/// Where a conjunct on a projection goes: onto the input, with the input's names, where each column that it reads is
/// a plain column there.
#[tactic(auto, using(crate::proofs::Placings::placing_rules))]
fn through_select(
    alloc: Global,
    projected: &Projected,
    conjunct: Expr,
) -> Result<Placement, AllocError>
    ensures { IfOk result (λ placement. placing_of placement
        ≡ below_select (map named_formula_of projected.now.exprs) (formula_of conjunct)) }
{
    if reads_only(&conjunct, projected) {
        let below = with_names(alloc, &conjunct, projected)?;
        Ok(Placement::OnInputs(below))
    } else {
        Ok(Placement::Above(conjunct))
    }
}

/// Where conjuncts on a projection go.
pub(crate) fn place_on_select(
    alloc: Global,
    exprs: &[NamedExpr],
    conjuncts: List<Expr>,
) -> Result<List<Placement>, AllocError>
    ensures { IfOk result (λ placements. map placing_of placements
        ≡ map (below_select (map named_formula_of exprs.now)) (map formula_of conjuncts)) }
{
    let exprs = NameIndex::of(alloc, exprs)?;
    let projected = Projected { exprs };
    Ok(place_each(alloc, &projected, conjuncts)?)
}
