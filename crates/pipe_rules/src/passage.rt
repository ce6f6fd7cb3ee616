//! What conjuncts of a filter go through, one after another.

ghost use Rattle.std.specs.Prelude.{◌≡◌, map, IfOk};
ghost use Rattle.pipe_expr.specs.Formula.{Formula, formula_of};
ghost use Rattle.pipe_rules.specs.Placing.{Placing};
ghost use Rattle.pipe_rules.specs.Placements.{placing_of};

use crate::placement::Placement;
use pipe_expr::Expr;
use pipe_schema::List;
use std::alloc::{AllocError, Global};

/// A node, as far as it decides where a conjunct of a filter on it goes.
pub trait Passage {
    /// Where a conjunct goes, and what it is there.
    ghost placing: { Self → Formula → Placing };

    /// Where a conjunct goes, and what it is there.
    fn place(&self, alloc: Global, conjunct: Expr) -> Result<Placement, AllocError>
        ensures { IfOk result (λ placement.
            placing_of placement ≡ placing self.now (formula_of conjunct)) };
}

/// What no conjunct goes through.
#[derive(Drop)]
pub(crate) struct Barrier;

impl Passage for Barrier {
    ghost use Rattle.pipe_rules.specs.Through.{stays_above};

    ghost placing = { λ b. stays_above };

    fn place(&self, _alloc: Global, conjunct: Expr) -> Result<Placement, AllocError> {
        Ok(Placement::Above(conjunct))
    }
}

/// What each conjunct goes through as it is.
#[derive(Drop)]
pub(crate) struct Opening;

impl Passage for Opening {
    ghost use Rattle.pipe_rules.specs.Through.{goes_down};

    ghost placing = { λ o. goes_down };

    fn place(&self, _alloc: Global, conjunct: Expr) -> Result<Placement, AllocError> {
        Ok(Placement::OnInputs(conjunct))
    }
}

/// Where each of some conjuncts goes.
pub fn place_each<P: Passage>(
    alloc: Global,
    passage: &P,
    conjuncts: List<Expr>,
) -> Result<List<Placement>, AllocError>
    ensures { IfOk result (λ placements.
        map placing_of placements ≡ map (P.placing passage.now) (map formula_of conjuncts)) }
{
    let mut placements = List::new(alloc);
    for conjunct in conjuncts.into_vec() {
        let placement = passage.place(alloc, conjunct)?;
        placements.push(placement)?;
    }
    Ok(placements)
}
