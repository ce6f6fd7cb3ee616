//! Where and why a plan can't be had in parts.

ghost use Rattle.std.specs.Prelude.{◌≡◌, [], true, length, IfOk};
ghost use Rattle.std.specs.List.{AllByRecursion};
ghost use Rattle.pipe_plan.specs.Node.{node_of};
ghost use Rattle.pipe_plan.specs.Plan.{plan_of};
ghost use Rattle.pipe_plan.specs.Under.{is_under, inputs_of};
ghost use Rattle.pipe_plan.specs.Faults.{IsWellFormed};
ghost use Rattle.pipe_parts.specs.declared.wish.Wish.TheVariants.{Split};
ghost use Rattle.pipe_parts.specs.Parts.{parts_root as root_of_parts};
ghost use Rattle.pipe_parts.specs.Obstacles.{HasLength, IsFoundAmong, IsFoundAt, IsFoundOn, why_joined, why_of};
ghost use Rattle.pipe_parts.specs.Sides.{AreFed};

use crate::least::{node_of_plan, parts_root};
use crate::ways::ways_of;
use crate::wish::Wish;
use pipe_check::CheckedPlan;
use pipe_expr::JoinType;
use pipe_plan::IR;
use pipe_schema::List;
use std::alloc::{AllocError, Global};

/// By which rule a node can't be had as it is wished.
#[derive(Clone, Copy, Debug, PartialEq, Eq)]
pub enum Why {
    /// A sort with a slice is wished in parts: the slice is of all rows.
    SlicedSort,
    /// A full join is wished in parts, and a key of it isn't a plain column.
    KeysNotColumns,
    /// A full join is wished by a key: its rows have keys of both sides.
    FullUnderKey,
    /// A node is wished by a key of which a column isn't a plain column of its input.
    NoPlainColumn,
}

/// A node that can't be had as it is wished, and why.
#[derive(Clone, Copy, Debug, PartialEq, Eq)]
pub struct Obstacle {
    pub node: u32,
    pub why: Why,
}

/// Why a join has no way as wished, where it has none.
fn reason_joined(how: JoinType, wish: &Wish) -> Why
    ensures { result ≡ why_joined how wish.now }
{
    match how {
        JoinType::Full => match wish {
            Wish::Split => Why::KeysNotColumns,
            Wish::Key { .. } => Why::FullUnderKey,
            Wish::Whole => Why::NoPlainColumn,
        },
        JoinType::Inner | JoinType::Left | JoinType::Cross | JoinType::Semi | JoinType::Anti =>
            Why::NoPlainColumn,
    }
}

/// Why a node has no way as wished, where it has none.
fn reason(node: &IR, wish: &Wish) -> Why
    ensures { result ≡ why_of (node_of node.now) wish.now }
{
    match node {
        IR::Sort { .. } => Why::SlicedSort,
        IR::Join { options, .. } => reason_joined(options.how, wish),
        IR::DataFrameScan { .. } => Why::NoPlainColumn,
        IR::Filter { .. } => Why::NoPlainColumn,
        IR::SimpleProjection { .. } => Why::NoPlainColumn,
        IR::Select { .. } => Why::NoPlainColumn,
        IR::HStack { .. } => Why::NoPlainColumn,
        IR::MapFunction { .. } => Why::NoPlainColumn,
        IR::Union { .. } => Why::NoPlainColumn,
    }
}

/// The inputs of a node, in the order of its members.
fn inputs(alloc: Global, node: &IR) -> Result<Vec<u32>, AllocError>
    ensures { IfOk result (λ numbers. numbers.items ≡ inputs_of (node_of node.now)) }
{
    match node {
        IR::DataFrameScan { .. } => Ok(Vec::new(alloc)),
        IR::Filter { input, .. } => Ok(vec![in alloc; *input]?),
        IR::SimpleProjection { input, .. } => Ok(vec![in alloc; *input]?),
        IR::Select { input, .. } => Ok(vec![in alloc; *input]?),
        IR::HStack { input, .. } => Ok(vec![in alloc; *input]?),
        IR::MapFunction { input, .. } => Ok(vec![in alloc; *input]?),
        IR::Union { inputs } => Ok(inputs.as_slice().to_vec(alloc)?),
        IR::Join { left, right, .. } => Ok(vec![in alloc; *left, *right]?),
        IR::Sort { input, .. } => Ok(vec![in alloc; *input]?),
    }
}

/// Of the inputs of a node, each as asked on one of its ways, what is found for the first that can't be had.
#[cycle(obstacle_at)]
fn obstacle_on(
    alloc: Global,
    plan: &CheckedPlan,
    n: u32,
    inputs: &[u32],
    way: &[Wish],
) -> Result<Option<Obstacle>, AllocError>
    requires good { IsWellFormed (plan_of plan.now.arena) plan.now.root }
    requires fed { AreFed (plan_of plan.now.arena) plan.now.root n inputs.now }
    requires long { length way.now ≡ length inputs.now }
    ensures { let plan = plan_of plan.now.arena in
        IfOk result (IsFoundOn plan inputs.now way.now) }
{
    for place in 0..inputs.len() {
        match obstacle_at(alloc, plan, inputs[place], &way[place])? {
            Some(found) => return Ok(Some(found)),
            None => {}
        }
    }
    Ok(None)
}

/// Of the ways of a node, where none of them can be gone, what is found on the first; `here` where it has no way.
#[cycle(obstacle_at)]
fn obstacle_among(
    alloc: Global,
    plan: &CheckedPlan,
    n: u32,
    inputs: &[u32],
    ways: &[List<Wish>],
    here: Obstacle,
) -> Result<Option<Obstacle>, AllocError>
    requires good { IsWellFormed (plan_of plan.now.arena) plan.now.root }
    requires fed { AreFed (plan_of plan.now.arena) plan.now.root n inputs.now }
    requires long { AllByRecursion (HasLength inputs.now) ways.now }
    ensures { let plan = plan_of plan.now.arena in
        IfOk result (IsFoundAmong plan inputs.now ways.now here) }
{
    let mut found = here;
    let mut place = ways.len();
    while 0 < place {
        place -= 1;
        match obstacle_on(alloc, plan, n, inputs, ways[place].as_slice())? {
            Some(first) => found = first,
            None => return Ok(None),
        }
    }
    Ok(Some(found))
}

/// Where and why a node can't be had as wished; none where it can.
#[cycle(obstacle_at)]
fn obstacle_at(
    alloc: Global,
    plan: &CheckedPlan,
    n: u32,
    wish: &Wish,
) -> Result<Option<Obstacle>, AllocError>
    requires good { IsWellFormed (plan_of plan.now.arena) plan.now.root }
    requires under { is_under (plan_of plan.now.arena).nodes plan.now.root n ≡ true }
    ensures { let plan = plan_of plan.now.arena in
        IfOk result (IsFoundAt plan (record { node = n; wish = wish.now })) }
{
    let node = node_of_plan(plan, n);
    let inputs = inputs(alloc, node)?;
    let ways = ways_of(alloc, plan, n, node, wish)?;
    let here = Obstacle {
        node: n,
        why: reason(node, wish),
    };
    obstacle_among(alloc, plan, n, inputs.as_slice(), ways.as_slice(), here)
}

/// Where and why a plan can't be had in parts; none where it can. From the root down, the first input that can't be had
/// as asked, on the first way of each node, to the first node that has no way as wished.
pub fn find_obstacle(alloc: Global, plan: &CheckedPlan) -> Result<Option<Obstacle>, AllocError>
    ensures { let given = plan_of plan.now.arena in
        IfOk result (IsFoundAt given (record {
          node = root_of_parts given plan.now.root;
          wish = Split;
        })) }
{
    plan.known_well_formed();
    obstacle_at(alloc, plan, parts_root(plan), &Wish::Split)
}
