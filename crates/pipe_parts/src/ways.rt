//! The ways in which a node can be had as it is wished.

ghost use Rattle.std.specs.Prelude.{◌≡◌, ◌∷◌, ◌++◌, [], map, IfOk, OnOk};
ghost use Rattle.std.specs.Option.{option_to_list};
ghost use Rattle.pipe_expr.specs.Formula.{formula_of};
ghost use Rattle.pipe_plan.specs.Node.{node_of};
ghost use Rattle.pipe_plan.specs.Plan.{plan_of};
ghost use Rattle.pipe_plan.specs.Under.{inputs_of};
ghost use Rattle.pipe_plan.specs.Schemas.{schema_of};
ghost use Rattle.pipe_rules.specs.Placed.{first_input};
ghost use Rattle.pipe_parts.specs.Wishes.{alike, alone, beside_whole, join_ways, slice_ways, ways, wishes_below};
ghost use Rattle.pipe_parts.specs.Sides.{sides_in, way_if, AreFed};

use crate::columns::wish_below;
use crate::keys::{Sides, by_key, split_ways};
use crate::least::{JoinAt, key_from_above};
use crate::wish::Wish;
use pipe_check::CheckedPlan;
use pipe_expr::JoinType;
use pipe_plan::{IR, PlanSlice};
use pipe_schema::{List, Schema, TryClone};
use std::alloc::{AllocError, Global};

/// One way.
fn one_way(alloc: Global, way: List<Wish>) -> Result<List<List<Wish>>, AllocError>
    ensures { IfOk result (λ made. made ≡ way ∷ []) }
{
    let mut ways = List::new(alloc);
    ways.push(way)?;
    Ok(ways)
}

/// A wish for one input.
fn alone(alloc: Global, wish: Wish) -> Result<List<Wish>, AllocError>
    ensures { IfOk result (λ made. made ≡ alone wish) }
{
    let mut way = List::new(alloc);
    way.push(wish)?;
    Ok(way)
}

/// A wish for each of two inputs.
fn pair(alloc: Global, left: Wish, right: Wish) -> Result<List<Wish>, AllocError>
    ensures { IfOk result (λ made. made ≡ left ∷ right ∷ []) }
{
    let mut way = List::new(alloc);
    way.push(left)?;
    way.push(right)?;
    Ok(way)
}

/// One wish for all inputs.
#[tactic(auto, using(crate::proofs::Barred::alike_rules))]
fn alike(alloc: Global, wish: &Wish, inputs: &[u32]) -> Result<List<Wish>, AllocError>
    ensures { IfOk result (λ made. made ≡ alike wish.now inputs.now) }
{
    let mut way = List::new(alloc);
    for _input in inputs {
        way.push(wish.try_clone()?)?;
    }
    Ok(way)
}

/// The ways of a node whose rows are made of its input's rows one by one.
fn ways_below(
    alloc: Global,
    input: &Schema,
    node: &IR,
    wish: &Wish,
) -> Result<List<List<Wish>>, AllocError>
    ensures { IfOk result (λ made.
        made ≡ map alone (wishes_below input.now (node_of node.now) wish.now)) }
{
    match wish_below(alloc, input, node, wish)? {
        Some(below) => {
            let way = alone(alloc, below)?;
            one_way(alloc, way)
        }
        None => Ok(List::new(alloc)),
    }
}

/// The ways that the sides of a join are.
fn ways_by(alloc: Global, all: &[Sides]) -> Result<List<List<Wish>>, AllocError>
    ensures { IfOk result (λ made. made ≡ map sides_in all.now) }
{
    let mut ways = List::new(alloc);
    for sides in all {
        let way = pair(alloc, sides.left.try_clone()?, sides.right.try_clone()?)?;
        ways.push(way)?;
    }
    Ok(ways)
}

/// Puts the way that the sides of a join are behind others, if there are sides.
fn push_sides(
    alloc: Global,
    ways: &mut List<List<Wish>>,
    sides: Option<Sides>,
) -> Result<(), AllocError>
    ensures { OnOk result (ways.new ≡ ways.old ++ way_if sides) }
{
    match sides {
        Some(sides) => {
            let way = pair(alloc, sides.left, sides.right)?;
            Ok(ways.push(way)?)
        }
        None => Ok(()),
    }
}

/// The ways of a join under a key: its left side by that key beside the whole right side, and both by it.
fn ways_by_key(
    alloc: Global,
    below: Option<Wish>,
    keyed: Option<Sides>,
) -> Result<List<List<Wish>>, AllocError>
    ensures { IfOk result (λ made.
        made ≡ map beside_whole (option_to_list below) ++ way_if keyed) }
{
    let mut ways = List::new(alloc);
    let whole = match below {
        Some(left) => Some(Sides {
            left,
            right: Wish::Whole,
        }),
        None => None,
    };
    push_sides(alloc, &mut ways, whole)?;
    push_sides(alloc, &mut ways, keyed)?;
    Ok(ways)
}

/// The ways of a join.
fn ways_joined(
    alloc: Global,
    input: &Schema,
    node: &IR,
    join: JoinAt,
    wish: &Wish,
) -> Result<List<List<Wish>>, AllocError>
    ensures { IfOk result (λ made. made
        ≡ join_ways join.entry.how join.entry.n (map formula_of join.entry.left_on.now)
        (map formula_of join.entry.right_on.now)
        (wishes_below input.now (node_of node.now) wish.now) wish.now) }
{
    match wish {
        Wish::Split => {
            let keyed = by_key(alloc, join.n, join.left_on, join.right_on)?;
            let ways = split_ways(alloc, join.how, keyed)?;
            ways_by(alloc, ways.as_slice())
        }
        Wish::Key { key, columns } => match join.how {
            JoinType::Full => Ok(List::new(alloc)),
            _ => {
                let below = wish_below(alloc, input, node, wish)?;
                let keyed = key_from_above(alloc, join, *key, columns.as_slice())?;
                ways_by_key(alloc, below, keyed)
            }
        },
        Wish::Whole => {
            let way = pair(alloc, Wish::Whole, Wish::Whole)?;
            one_way(alloc, way)
        }
    }
}

/// The ways of a sort.
fn ways_sorted(
    alloc: Global,
    slice: Option<PlanSlice>,
    wish: &Wish,
) -> Result<List<List<Wish>>, AllocError>
    ensures { IfOk result (λ made. made ≡ slice_ways slice wish.now) }
{
    let whole = match wish {
        Wish::Split => false,
        Wish::Key { .. } => false,
        Wish::Whole => true,
    };
    if slice.is_some() && !whole {
        return Ok(List::new(alloc));
    }
    let way = alone(alloc, wish.try_clone()?)?;
    one_way(alloc, way)
}

/// The ways in which a node can be had as wished: for each a wish for each input, in order.
pub(crate) fn ways_of(
    alloc: Global,
    plan: &CheckedPlan,
    n: u32,
    node: &IR,
    wish: &Wish,
) -> Result<List<List<Wish>>, AllocError>
    requires { AreFed (plan_of plan.now.arena) plan.now.root n (inputs_of (node_of node.now)) }
    ensures { let x = node_of node.now in
        let input = schema_of (plan_of plan.now.arena) (first_input (inputs_of x)) in
        IfOk result (λ made. made ≡ ways input n x wish.now) }
{
    match node {
        IR::DataFrameScan { .. } => one_way(alloc, List::new(alloc)),
        IR::Filter { input, .. } => ways_below(alloc, plan.schema(*input), node, wish),
        IR::SimpleProjection { input, .. } => { ways_below(alloc, plan.schema(*input), node, wish) }
        IR::Select { input, .. } => ways_below(alloc, plan.schema(*input), node, wish),
        IR::HStack { input, .. } => ways_below(alloc, plan.schema(*input), node, wish),
        IR::MapFunction { input, .. } => { ways_below(alloc, plan.schema(*input), node, wish) }
        IR::Union { inputs } => {
            let way = alike(alloc, wish, inputs.as_slice())?;
            one_way(alloc, way)
        }
        IR::Join {
            left,
            right,
            left_on,
            right_on,
            options,
        } => {
            let join = JoinAt {
                n,
                left: *left,
                right: *right,
                left_on: left_on.as_slice(),
                right_on: right_on.as_slice(),
                how: options.how,
            };
            ways_joined(alloc, plan.schema(*left), node, join, wish)
        }
        IR::Sort { options, .. } => ways_sorted(alloc, options.slice, wish),
    }
}
