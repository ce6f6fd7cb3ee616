//! The least choice, from the root down.

ghost use Rattle.std.specs.Prelude.{◌≡◌, ◌∷◌, ◌++◌, [], true, map, slice_index_or, IfOk};
ghost use Rattle.std.specs.Option.{option_to_list};
ghost use Rattle.std.specs.List.{flat_map};
ghost use Rattle.pipe_expr.specs.Formula.{formula_of};
ghost use Rattle.pipe_plan.specs.Node.{node_of};
ghost use Rattle.pipe_plan.specs.Plan.{plan_of};
ghost use Rattle.pipe_plan.specs.Under.{is_under, node_at};
ghost use Rattle.pipe_plan.specs.Schemas.{schema_of};
ghost use Rattle.pipe_plan.specs.Faults.{IsWellFormed};
ghost use Rattle.pipe_parts.specs.declared.wish.Wish.TheVariants.{Split, Whole};
ghost use Rattle.pipe_parts.specs.Wishes.{alone, alike, wishes_below, beside_whole, keyed_on, join_ways, slice_ways};
ghost use Rattle.pipe_parts.specs.Choices.{choices_for, choices_of, in_pairs};
ghost use Rattle.pipe_parts.specs.Parts.{parts_root as root_of_parts};
ghost use Rattle.pipe_parts.specs.Least.{IsBest, IsBounded};
ghost use Rattle.pipe_parts.specs.Sides.{sides_in, way_if, AreSides, AreFed, AreOneKey, AreKeyWays, IsKeyedBy, IsLeftOf};

use crate::columns::wish_below;
use crate::found::{Found, better, both, nothing, one};
use crate::keys::{Sides, by_key, by_key_on, split_ways};
use crate::wish::{ScanCut, Wish};
use pipe_check::CheckedPlan;
use pipe_expr::{Expr, JoinType};
use pipe_plan::{IR, PlanSlice};
use pipe_schema::{List, Text};
use std::alloc::{AllocError, Global};

/// A node of a plan.
pub fn node_of_plan<'a>(plan: &CheckedPlan<'a>, n: u32) -> &'a IR
    requires good { IsWellFormed (plan_of plan.now.arena) plan.now.root }
    requires under { is_under (plan_of plan.now.arena).nodes plan.now.root n ≡ true }
    ensures { node_of result.now ≡ node_at (plan_of plan.now.arena).nodes n }
{
    &plan.arena().nodes.as_slice()[n as usize]
}

/// How many rows a frame has.
fn rows_of_frame(sizes: &[u64], frame: u32) -> u64
    ensures { result ≡ slice_index_or sizes.now frame 0 }
{
    match sizes.get(frame as usize) {
        Some(rows) => *rows,
        None => 0,
    }
}

/// A join: its number, its inputs, its keys and its kind.
#[derive(Clone, Copy)]
pub(crate) struct JoinAt<'a> {
    pub(crate) n: u32,
    pub(crate) left: u32,
    pub(crate) right: u32,
    pub(crate) left_on: &'a [Expr],
    pub(crate) right_on: &'a [Expr],
    pub(crate) how: JoinType,
}

/// Both sides by a key from above, where its columns are the join's left keys; a cross join has none.
pub(crate) fn key_from_above(
    alloc: Global,
    join: JoinAt,
    key: u32,
    columns: &[Text],
) -> Result<Option<Sides>, AllocError>
    ensures ways { IfOk result (λ sides. AreKeyWays join.entry.how
        (keyed_on key columns.now (map formula_of join.entry.left_on.now) (map formula_of join.entry.right_on.now))
        (way_if sides)) }
    ensures left { IfOk result (IsKeyedBy key columns.now) }
{
    match join.how {
        JoinType::Cross => Ok(None),
        _ => by_key_on(alloc, key, columns, join.left_on, join.right_on),
    }
}

/// What is found for both sides of a join, each as asked.
#[cycle(least)]
fn least_pair(
    alloc: Global,
    plan: &CheckedPlan,
    sizes: &[u64],
    join: JoinAt,
    way: &Sides,
) -> Result<Option<Found>, AllocError>
    requires good { IsWellFormed (plan_of plan.now.arena) plan.now.root }
    requires sides { AreSides (plan_of plan.now.arena) plan.now.root join.n join.left join.right }
    ensures best { let plan = plan_of plan.now.arena in
        IfOk result (IsBest plan sizes.now
        (in_pairs (choices_of plan join.entry.left way.now.left) (choices_of plan join.entry.right way.now.right))) }
    ensures bounded { IfOk result IsBounded }
{
    let first = least(alloc, plan, sizes, join.left, &way.left)?;
    let second = least(alloc, plan, sizes, join.right, &way.right)?;
    both(first, second)
}

/// The least of what is found for some ways of a join.
#[cycle(least)]
fn least_ways(
    alloc: Global,
    plan: &CheckedPlan,
    sizes: &[u64],
    join: JoinAt,
    ways: &[Sides],
) -> Result<Option<Found>, AllocError>
    requires good { IsWellFormed (plan_of plan.now.arena) plan.now.root }
    requires sides { AreSides (plan_of plan.now.arena) plan.now.root join.n join.left join.right }
    ensures best { let plan = plan_of plan.now.arena in
        IfOk result (IsBest plan sizes.now
        (flat_map (choices_for (choices_of plan) (join.entry.left ∷ join.entry.right ∷ [])) (map sides_in ways.now))) }
    ensures bounded { IfOk result IsBounded }
{
    let mut found = None;
    for way in ways {
        let next = least_pair(alloc, plan, sizes, join, way)?;
        found = better(found, next);
    }
    Ok(found)
}

/// What is found for a join that is cut by a key from above: its left side by that key, and its right side whole, or by
/// that key too where it is the join's.
#[cycle(least)]
fn least_keyed(
    alloc: Global,
    plan: &CheckedPlan,
    sizes: &[u64],
    join: JoinAt,
    below: Option<Wish>,
    keyed: Option<Sides>,
) -> Result<Option<Found>, AllocError>
    requires good { IsWellFormed (plan_of plan.now.arena) plan.now.root }
    requires sides { AreSides (plan_of plan.now.arena) plan.now.root join.n join.left join.right }
    requires same { AreOneKey below keyed }
    ensures best { let plan = plan_of plan.now.arena in
        IfOk result (IsBest plan sizes.now
        (flat_map (choices_for (choices_of plan) (join.entry.left ∷ join.entry.right ∷ []))
        (map beside_whole (option_to_list below) ++ way_if keyed))) }
    ensures bounded { IfOk result IsBounded }
{
    match below {
        None => match keyed {
            None => Ok(None),
            Some(way) => least_pair(alloc, plan, sizes, join, &way),
        },
        Some(below) => {
            let first = least(alloc, plan, sizes, join.left, &below)?;
            let whole = least(alloc, plan, sizes, join.right, &Wish::Whole)?;
            match keyed {
                None => both(first, whole),
                Some(way) => {
                    let part = least(alloc, plan, sizes, join.right, &way.right)?;
                    both(first, better(whole, part))
                }
            }
        }
    }
}

/// What is found for a join as wished.
#[cycle(least)]
fn least_join(
    alloc: Global,
    plan: &CheckedPlan,
    sizes: &[u64],
    join: JoinAt,
    node: &IR,
    wish: &Wish,
) -> Result<Option<Found>, AllocError>
    requires good { IsWellFormed (plan_of plan.now.arena) plan.now.root }
    requires sides { AreSides (plan_of plan.now.arena) plan.now.root join.n join.left join.right }
    requires left { IsLeftOf (node_of node.now) }
    ensures best { let plan = plan_of plan.now.arena in
        let below = wishes_below (schema_of plan join.entry.left) (node_of node.now) wish.now in
        IfOk result (IsBest plan sizes.now
        (flat_map (choices_for (choices_of plan) (join.entry.left ∷ join.entry.right ∷ []))
        (join_ways join.entry.how join.entry.n (map formula_of join.entry.left_on.now) (map formula_of join.entry.right_on.now)
        below wish.now))) }
    ensures bounded { IfOk result IsBounded }
{
    match wish {
        Wish::Split => {
            let keyed = by_key(alloc, join.n, join.left_on, join.right_on)?;
            let ways = split_ways(alloc, join.how, keyed)?;
            least_ways(alloc, plan, sizes, join, ways.as_slice())
        }
        Wish::Key { key, columns } => match join.how {
            JoinType::Full => Ok(None),
            _ => {
                let below = wish_below(alloc, plan.schema(join.left), node, wish)?;
                let keyed = key_from_above(alloc, join, *key, columns.as_slice())?;
                least_keyed(alloc, plan, sizes, join, below, keyed)
            }
        },
        Wish::Whole => {
            let way = Sides {
                left: Wish::Whole,
                right: Wish::Whole,
            };
            least_pair(alloc, plan, sizes, join, &way)
        }
    }
}

/// What is found for all inputs of a union, each as wished.
#[cycle(least)]
fn least_all(
    alloc: Global,
    plan: &CheckedPlan,
    sizes: &[u64],
    n: u32,
    inputs: &[u32],
    wish: &Wish,
) -> Result<Option<Found>, AllocError>
    requires good { IsWellFormed (plan_of plan.now.arena) plan.now.root }
    requires fed { AreFed (plan_of plan.now.arena) plan.now.root n inputs.now }
    ensures best { let plan = plan_of plan.now.arena in
        IfOk result (IsBest plan sizes.now
        (choices_for (choices_of plan) inputs.now (alike wish.now inputs.now))) }
    ensures bounded { IfOk result IsBounded }
{
    let mut found = nothing(alloc);
    let mut place = inputs.len();
    while 0 < place {
        place -= 1;
        let next = least(alloc, plan, sizes, inputs[place], wish)?;
        found = both(next, found)?;
    }
    Ok(found)
}

/// What is found for a node whose rows are made of its input's rows one by one.
#[cycle(least)]
fn least_below(
    alloc: Global,
    plan: &CheckedPlan,
    sizes: &[u64],
    n: u32,
    node: &IR,
    input: u32,
    wish: &Wish,
) -> Result<Option<Found>, AllocError>
    requires good { IsWellFormed (plan_of plan.now.arena) plan.now.root }
    requires fed { AreFed (plan_of plan.now.arena) plan.now.root n (input ∷ []) }
    ensures best { let plan = plan_of plan.now.arena in
        IfOk result (IsBest plan sizes.now
        (flat_map (choices_for (choices_of plan) (input ∷ []))
        (map alone (wishes_below (schema_of plan input) (node_of node.now) wish.now)))) }
    ensures bounded { IfOk result IsBounded }
{
    match wish_below(alloc, plan.schema(input), node, wish)? {
        Some(below) => least(alloc, plan, sizes, input, &below),
        None => Ok(None),
    }
}

/// What is found for a sort.
#[cycle(least)]
fn least_sorted(
    alloc: Global,
    plan: &CheckedPlan,
    sizes: &[u64],
    n: u32,
    input: u32,
    slice: Option<PlanSlice>,
    wish: &Wish,
) -> Result<Option<Found>, AllocError>
    requires good { IsWellFormed (plan_of plan.now.arena) plan.now.root }
    requires fed { AreFed (plan_of plan.now.arena) plan.now.root n (input ∷ []) }
    ensures best { let plan = plan_of plan.now.arena in
        IfOk result (IsBest plan sizes.now
        (flat_map (choices_for (choices_of plan) (input ∷ [])) (slice_ways slice wish.now))) }
    ensures bounded { IfOk result IsBounded }
{
    match slice {
        None => least(alloc, plan, sizes, input, wish),
        Some(_) => match wish {
            Wish::Split => Ok(None),
            Wish::Key { .. } => Ok(None),
            Wish::Whole => least(alloc, plan, sizes, input, wish),
        },
    }
}

/// What is found for a node as wished: a choice that leaves the least to be had whole.
#[cycle(least)]
fn least(
    alloc: Global,
    plan: &CheckedPlan,
    sizes: &[u64],
    n: u32,
    wish: &Wish,
) -> Result<Option<Found>, AllocError>
    requires good { IsWellFormed (plan_of plan.now.arena) plan.now.root }
    requires under { is_under (plan_of plan.now.arena).nodes plan.now.root n ≡ true }
    ensures best { let plan = plan_of plan.now.arena in
        IfOk result (IsBest plan sizes.now (choices_of plan n wish.now)) }
    ensures bounded { IfOk result IsBounded }
{
    let node = node_of_plan(plan, n);
    match node {
        IR::DataFrameScan { frame, .. } => one(alloc, n, wish, rows_of_frame(sizes, *frame)),
        IR::Filter { input, .. } => least_below(alloc, plan, sizes, n, node, *input, wish),
        IR::SimpleProjection { input, .. } => {
            least_below(alloc, plan, sizes, n, node, *input, wish)
        }
        IR::Select { input, .. } => least_below(alloc, plan, sizes, n, node, *input, wish),
        IR::HStack { input, .. } => least_below(alloc, plan, sizes, n, node, *input, wish),
        IR::MapFunction { input, .. } => { least_below(alloc, plan, sizes, n, node, *input, wish) }
        IR::Union { inputs } => least_all(alloc, plan, sizes, n, inputs.as_slice(), wish),
        IR::Join {
            left,
            right,
            left_on,
            right_on,
            options,
        } => {
            let join = JoinAt {
                n,
                left: *left,
                right: *right,
                left_on: left_on.as_slice(),
                right_on: right_on.as_slice(),
                how: options.how,
            };
            least_join(alloc, plan, sizes, join, node, wish)
        }
        IR::Sort { input, options, .. } => least_sorted(
            alloc,
            plan,
            sizes,
            n,
            *input,
            options.slice,
            wish,
        ),
    }
}

/// The node whose rows the parts give: the root, or the input of a sort at the root.
pub fn parts_root(plan: &CheckedPlan) -> u32
    ensures root { result ≡ root_of_parts (plan_of plan.now.arena) plan.now.root }
    ensures under { is_under (plan_of plan.now.arena).nodes plan.now.root result ≡ true }
{
    match node_of_plan(plan, plan.root()) {
        IR::Sort { input, .. } => *input,
        _ => plan.root(),
    }
}

/// How to cut the scans of a plan so that each part gives a share of its rows, and the least has to be had whole;
/// `sizes` are the rows of each frame. None where the rules allow no choice.
pub fn least_choice(
    alloc: Global,
    plan: &CheckedPlan,
    sizes: &[u64],
) -> Result<Option<Found>, AllocError>
    ensures { let given = plan_of plan.now.arena in
        IfOk result (IsBest given sizes.now (choices_of given (root_of_parts given plan.now.root) Split)) }
{
    plan.known_well_formed();
    least(alloc, plan, sizes, parts_root(plan), &Wish::Split)
}

/// The scans of a plan from left to right, each whole: the one choice that the rules allow for the root as wished whole.
pub fn whole_scans(alloc: Global, plan: &CheckedPlan) -> Result<List<ScanCut>, AllocError>
    ensures { let given = plan_of plan.now.arena in
        IfOk result (λ scans. choices_of given plan.now.root Whole ≡ scans ∷ []) }
{
    let root = plan.root();
    match least(alloc, plan, &[], root, &Wish::Whole)? {
        Some(found) => {
            let Found { cuts, whole: _ } = found;
            Ok(cuts)
        }
        None => unreachable!(),
    }
}
