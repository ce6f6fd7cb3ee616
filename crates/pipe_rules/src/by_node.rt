//! Where the conjuncts of a filter go below the node that the filter stands on.

ghost use Rattle.std.specs.Prelude.{◌≡◌, map, IfOk};
ghost use Rattle.pipe_expr.specs.Formula.{formula_of};
ghost use Rattle.pipe_plan.specs.Node.{node_of};
ghost use Rattle.pipe_rules.specs.Placing.{placing};
ghost use Rattle.pipe_rules.specs.Placements.{placing_of};

use crate::function::place_on_function;
use crate::hstack::place_on_hstack;
use crate::join::place_on_join;
use crate::passage::{Barrier, Opening, place_each};
use crate::placement::Placement;
use crate::select::place_on_select;
use pipe_expr::Expr;
use pipe_plan::IR;
use pipe_schema::{List, Schema};
use std::alloc::{AllocError, Global};

/// Where each conjunct of a filter on a node goes, over the schemas of the node's inputs: `left` is that of a join's left
/// input or of the only input, `right` that of a join's right input; where the node has none, any schema serves. Names
/// are looked up in indices that are made once for all conjuncts.
#[tactic(auto, using(crate::proofs::ByKind::node_rules))]
pub fn place_all(
    alloc: Global,
    node: &IR,
    left: &Schema,
    right: &Schema,
    conjuncts: List<Expr>,
) -> Result<List<Placement>, AllocError>
    ensures { IfOk result (λ placements. map placing_of placements
        ≡ map (placing left.now right.now (node_of node.now)) (map formula_of conjuncts)) }
{
    if conjuncts.len() == 0 {
        return Ok(List::new(alloc));
    }
    match node {
        IR::DataFrameScan { .. } => Ok(place_each(alloc, &Barrier, conjuncts)?),
        IR::Filter { .. } => Ok(place_each(alloc, &Opening, conjuncts)?),
        IR::SimpleProjection { .. } => Ok(place_each(alloc, &Opening, conjuncts)?),
        IR::Select { exprs, .. } => Ok(place_on_select(alloc, exprs.as_slice(), conjuncts)?),
        IR::HStack { exprs, .. } => {
            Ok(place_on_hstack(alloc, left, exprs.as_slice(), conjuncts)?)
        }
        IR::MapFunction { function, .. } => {
            Ok(place_on_function(alloc, left, function, conjuncts)?)
        }
        IR::Union { .. } => Ok(place_each(alloc, &Opening, conjuncts)?),
        IR::Join {
            right_on,
            options,
            ..
        } => Ok(place_on_join(alloc, left, right, right_on.as_slice(), options, conjuncts)?),
        IR::Sort { options, .. } => match options.slice {
            None => Ok(place_each(alloc, &Opening, conjuncts)?),
            Some(_) => Ok(place_each(alloc, &Barrier, conjuncts)?),
        },
    }
}
