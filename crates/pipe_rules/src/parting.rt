//! The conjuncts of a filter on a node, by where they go.

ghost use Rattle.std.specs.Prelude.{◌≡◌, map, IfOk, OnOk};
ghost use Rattle.pipe_expr.specs.Formula.{formula_of};
ghost use Rattle.pipe_plan.specs.Node.{node_of};
ghost use Rattle.pipe_rules.specs.Placing.{placing};
ghost use Rattle.pipe_rules.specs.Placements.{placing_of};
ghost use Rattle.pipe_rules.specs.Parted.{parts_of, one_more};
ghost use Rattle.pipe_rules.specs.Values.{placed_in};

use crate::by_node::place_all;
use crate::placement::Placement;
use pipe_expr::Expr;
use pipe_plan::IR;
use pipe_schema::{List, Schema};
use std::alloc::{AllocError, Global};

/// Conjuncts that stay above a node, that go onto each of its inputs, and that go onto one side of a join.
#[derive(Drop)]
pub(crate) struct Parted {
    pub(crate) above: List<Expr>,
    pub(crate) inputs: List<Expr>,
    pub(crate) left: List<Expr>,
    pub(crate) right: List<Expr>,
}

/// Puts a conjunct where it goes, behind others.
fn push_placed(parted: &mut Parted, placement: Placement) -> Result<(), AllocError>
    ensures { OnOk result (placed_in parted.new ≡ one_more (placed_in parted.old) (placing_of placement)) }
{
    match placement {
        Placement::Above(conjunct) => parted.above.push(conjunct)?,
        Placement::OnInputs(conjunct) => parted.inputs.push(conjunct)?,
        Placement::OnLeft(conjunct) => parted.left.push(conjunct)?,
        Placement::OnRight(conjunct) => parted.right.push(conjunct)?,
    }
    Ok(())
}

/// Conjuncts by where they go.
fn gathered(alloc: Global, placements: List<Placement>) -> Result<Parted, AllocError>
    ensures { IfOk result (λ parted. placed_in parted ≡ parts_of (map placing_of placements)) }
{
    let mut parted = Parted {
        above: List::new(alloc),
        inputs: List::new(alloc),
        left: List::new(alloc),
        right: List::new(alloc),
    };
    for placement in placements.into_vec() {
        push_placed(&mut parted, placement)?;
    }
    Ok(parted)
}

/// The conjuncts of a filter on a node, by where they go, over the schemas of the node's first and second input.
pub(crate) fn part(
    alloc: Global,
    node: &IR,
    left: &Schema,
    right: &Schema,
    conjuncts: List<Expr>,
) -> Result<Parted, AllocError>
    ensures { IfOk result (λ parted. placed_in parted
        ≡ parts_of (map (placing left.now right.now (node_of node.now))
        (map formula_of conjuncts))) }
{
    let placements = place_all(alloc, node, left, right, conjuncts)?;
    Ok(gathered(alloc, placements)?)
}
