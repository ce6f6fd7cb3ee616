//! Filters pushed down a plan, from the root.

ghost use Rattle.std.specs.Prelude.{◌≡◌, ◌<◌, ◌≤◌, ◌+◌, ◌*◌, ℕ, ◌∷◌, [], ◌++◌, true, false, map, length, IfOk, IfErr, OnOk};
ghost use Rattle.std.specs.List.{AllByRecursion};
ghost use Rattle.pipe_expr.specs.Formula.{formula_of};
ghost use Rattle.pipe_plan.specs.Node.{node_of};
ghost use Rattle.pipe_plan.specs.Plan.{plan_of};
ghost use Rattle.pipe_plan.specs.Under.{is_under, node_at, inputs_of};
ghost use Rattle.pipe_plan.specs.Schemas.{schema_of};
ghost use Rattle.pipe_plan.specs.PlanRows.{rows_of};
ghost use Rattle.pipe_plan.specs.Faults.{IsWellFormed, most_nodes};
ghost use Rattle.pipe_plan.specs.declared.error.PipeError.TheVariants as error;
ghost use Rattle.pipe_events.specs.Fits.{FramesFit};
ghost use Rattle.pipe_rules.specs.Conjuncts.{conjuncts_of};
ghost use Rattle.pipe_rules.specs.Placed.{is_input, first_input};
ghost use Rattle.pipe_rules.specs.Parted.{parted, part_for, is_join};
ghost use Rattle.pipe_rules.specs.Reach.{formulas_in, AreOver};
ghost use Rattle.pipe_rules.specs.Values.{parts_in};
ghost use Rattle.pipe_rules.specs.Low.{is_filter, is_sort, IsConjunct, AreLow};
ghost use Rattle.pipe_rules.specs.Sorts.{sorting_of};
ghost use Rattle.pipe_rules.specs.Literals.{AddsNoLiteral};
ghost use Rattle.pipe_rules.specs.Sizes.{sum_of, size_of, count_under as nodes_counted, IsTooLarge};
ghost use Rattle.pipe_rules.specs.Renumbered.{with_inputs};
ghost use Rattle.pipe_rules.specs.Grown.{over, AreWithin, AreUnder, IsPut, IsRewritten, AreRewritten};

use crate::batch::{Batch, with_behind};
use crate::copying::{copy_over, first_or, inputs, second_or};
use crate::counting::count_under;
use crate::sharing::{Shares, share};
use crate::splitting::{conjunction, conjuncts};
use pipe_check::CheckedPlan;
use pipe_events::frames_fit;
use pipe_expr::Expr;
use pipe_plan::{IR, PipeError};
use pipe_schema::{List, Schema};
use std::alloc::Global;

/// How many nodes a plan may have.
const MOST_NODES: u32 = 4096;

/// How many nodes under the root may be rewritten: each may get a filter.
const MOST_UNDER: usize = 2048;

/// A rewritten plan, over the frames of the plan that was given.
#[derive(Debug, Drop)]
pub struct Rewritten {
    pub nodes: List<IR>,
    pub root: u32,
}

/// Puts a node behind others, and tells its number.
fn push_node(nodes: &mut List<IR>, node: IR) -> Result<u32, PipeError>
    requires { length nodes.old < most_nodes }
    ensures added { OnOk result
        (map node_of nodes.new ≡ map node_of nodes.old ++ node_of node ∷ []) }
    ensures number { IfOk result (λ k. k ≡ length (map node_of nodes.old)) }
    ensures err { IfErr result (λ e. e ≡ error.Memory) }
{
    let number = nodes.len() as u32;
    nodes.push(node)?;
    Ok(number)
}

/// The conjuncts that stand on a filter, and behind them those of its predicate.
fn with_conjuncts(
    alloc: Global,
    schema: &Schema,
    predicate: &Expr,
    above: Batch,
) -> Result<Batch, PipeError>
    requires { AreOver schema.now above }
    ensures all { IfOk result (λ all. formulas_in all
        ≡ formulas_in above ++ conjuncts_of (formula_of predicate.now)) }
    ensures over { IfOk result (AreOver schema.now) }
    ensures err { IfErr result (λ e. e ≡ error.Memory) }
{
    let own = conjuncts(alloc, predicate)?;
    Ok(with_behind(alloc, schema, above, own)?)
}

/// The conjuncts of a filter on a node under the root, by where they go.
fn part_at(
    alloc: Global,
    plan: &CheckedPlan,
    n: u32,
    node: &IR,
    inputs: &[u32],
    conjuncts: Batch,
) -> Result<Shares, PipeError>
    requires good { IsWellFormed (plan_of plan.now.arena) plan.now.root }
    requires under { is_under (plan_of plan.now.arena).nodes plan.now.root n ≡ true }
    requires at { node_at (plan_of plan.now.arena).nodes n ≡ node_of node.now }
    requires inputs { inputs.now ≡ inputs_of (node_of node.now) }
    requires over { AreOver (schema_of (plan_of plan.now.arena) n) conjuncts }
    ensures parts { IfOk result (λ parts. parts_in parts
        ≡ parted (schema_of (plan_of plan.now.arena)) (node_of node.now)
        (formulas_in conjuncts)) }
    ensures over { IfOk result (λ parts. is_join (node_of node.now) ≡ true → AreOver
        (schema_of (plan_of plan.now.arena) (first_input (inputs_of (node_of node.now))))
        parts.left) }
    ensures err { IfErr result (λ e. e ≡ error.Memory) }
{
    let own = plan.schema(n);
    let left = plan.schema(first_or(n, inputs));
    let right = plan.schema(second_or(n, inputs));
    Ok(share(alloc, node, own, left, right, conjuncts)?)
}

/// Puts a copy of a node over new inputs behind others, and a filter of some conjuncts on it, where there are any; tells
/// the number of the last. This stands apart from the recursion, whose frames are smaller so.
#[inline(never)]
fn push_over(
    alloc: Global,
    nodes: &mut List<IR>,
    node: &IR,
    inputs: &[u32],
    above: &[Expr],
) -> Result<u32, PipeError>
    requires { length nodes.old + 1 < most_nodes }
    ensures put { IfOk result (IsPut (map node_of nodes.old) (map node_of nodes.new)
        (with_inputs (node_of node.now) inputs.now) (map formula_of above.now)) }
    ensures err { IfErr result (λ e. e ≡ error.Memory) }
{
    let copy = copy_over(alloc, node, inputs)?;
    let number = push_node(nodes, copy)?;
    match conjunction(alloc, above)? {
        None => Ok(number),
        Some(predicate) => {
            let filter = IR::Filter {
                input: number,
                predicate,
            };
            Ok(push_node(nodes, filter)?)
        }
    }
}

/// Rewrites the inputs of a node, each under the conjuncts that go onto it, and tells their new numbers.
#[cycle(rewrite)]
fn rewrite_inputs(
    alloc: Global,
    plan: &CheckedPlan,
    nodes: &mut List<IR>,
    n: u32,
    node: &IR,
    inputs: &[u32],
    parts: &mut Shares,
) -> Result<List<u32>, PipeError>
    requires good { IsWellFormed (plan_of plan.now.arena) plan.now.root }
    requires frames { FramesFit (plan_of plan.now.arena) }
    requires under { is_under (plan_of plan.now.arena).nodes plan.now.root n ≡ true }
    requires at { node_at (plan_of plan.now.arena).nodes n ≡ node_of node.now }
    requires inputs { inputs.now ≡ inputs_of (node_of node.now) }
    requires typed { (i : ℕ) → is_input (node_of node.now) i ≡ true
        → AllByRecursion (IsConjunct (schema_of (plan_of plan.now.arena) i))
        (part_for (node_of node.now) (parts_in parts.old) i) }
    requires over { is_join (node_of node.now) ≡ true → AreOver
        (schema_of (plan_of plan.now.arena) (first_input (inputs_of (node_of node.now))))
        parts.old.left }
    requires room { length nodes.old + 2 * sum_of (size_of (plan_of plan.now.arena).nodes) inputs.now
        ≤ most_nodes }
    ensures above { parts.new.above ≡ parts.old.above }
    ensures err { IfErr result (λ e. e ≡ error.Memory) }
    ensures rewritten { IfOk result (AreRewritten (plan_of plan.now.arena) (map node_of nodes.old)
        (map node_of nodes.new) (node_of node.now) (parts_in parts.old) inputs.now) }
{
    let mut numbers = List::new(alloc);
    for input in inputs {
        let share = parts.take_for(alloc, node, *input)?;
        let number = rewrite(alloc, plan, nodes, *input, share)?;
        numbers.push(number)?;
    }
    Ok(numbers)
}

/// Rewrites a node that is no filter.
#[cycle(rewrite)]
fn rewrite_node(
    alloc: Global,
    plan: &CheckedPlan,
    nodes: &mut List<IR>,
    n: u32,
    node: &IR,
    conjuncts: Batch,
) -> Result<u32, PipeError>
    requires good { IsWellFormed (plan_of plan.now.arena) plan.now.root }
    requires frames { FramesFit (plan_of plan.now.arena) }
    requires under { is_under (plan_of plan.now.arena).nodes plan.now.root n ≡ true }
    requires at { node_at (plan_of plan.now.arena).nodes n ≡ node_of node.now }
    requires plain { is_filter (node_of node.now) ≡ false }
    requires typed { AllByRecursion (IsConjunct (schema_of (plan_of plan.now.arena) n))
        (formulas_in conjuncts) }
    requires over { AreOver (schema_of (plan_of plan.now.arena) n) conjuncts }
    requires room { length nodes.old + 2 * size_of (plan_of plan.now.arena).nodes n ≤ most_nodes }
    ensures err { IfErr result (λ e. e ≡ error.Memory) }
    ensures rewritten { IfOk result (IsRewritten (plan_of plan.now.arena) (map node_of nodes.old)
        (map node_of nodes.new) n (formulas_in conjuncts)) }
{
    let inputs = inputs(alloc, node)?;
    let read = inputs.as_slice();
    let mut parts = part_at(alloc, plan, n, node, read, conjuncts)?;
    let numbers = rewrite_inputs(alloc, plan, nodes, n, node, read, &mut parts)?;
    Ok(push_over(
        alloc,
        nodes,
        node,
        numbers.as_slice(),
        parts.above.as_slice(),
    )?)
}

/// Rewrites a node under some conjuncts, behind other new nodes, and tells its new number.
#[cycle(rewrite)]
fn rewrite(
    alloc: Global,
    plan: &CheckedPlan,
    nodes: &mut List<IR>,
    n: u32,
    conjuncts: Batch,
) -> Result<u32, PipeError>
    requires good { IsWellFormed (plan_of plan.now.arena) plan.now.root }
    requires frames { FramesFit (plan_of plan.now.arena) }
    requires under { is_under (plan_of plan.now.arena).nodes plan.now.root n ≡ true }
    requires typed { AllByRecursion (IsConjunct (schema_of (plan_of plan.now.arena) n))
        (formulas_in conjuncts) }
    requires over { AreOver (schema_of (plan_of plan.now.arena) n) conjuncts }
    requires room { length nodes.old + 2 * size_of (plan_of plan.now.arena).nodes n ≤ most_nodes }
    ensures err { IfErr result (λ e. e ≡ error.Memory) }
    ensures rewritten { IfOk result (IsRewritten (plan_of plan.now.arena) (map node_of nodes.old)
        (map node_of nodes.new) n (formulas_in conjuncts)) }
{
    let node = &plan.arena().nodes.as_slice()[n as usize];
    match node {
        IR::Filter { input, predicate } => {
            let fields = plan.schema(*input);
            let all = with_conjuncts(alloc, fields, predicate, conjuncts)?;
            Ok(rewrite(alloc, plan, nodes, *input, all)?)
        }
        _ => Ok(rewrite_node(alloc, plan, nodes, n, node, conjuncts)?),
    }
}

/// The plan with each conjunct of each filter as low as it goes. `TooMany` exactly where more than 2,048 nodes stand
/// under the root.
pub fn push_filters(alloc: Global, plan: &CheckedPlan) -> Result<Rewritten, PipeError>
    ensures good { IfOk result (λ made.
        IsWellFormed (over (plan_of plan.now.arena).frames (map node_of made.nodes)) made.root) }
    ensures schema { IfOk result (λ made.
        schema_of (over (plan_of plan.now.arena).frames (map node_of made.nodes)) made.root
        ≡ schema_of (plan_of plan.now.arena) plan.now.root) }
    ensures rows { IfOk result (λ made.
        rows_of (over (plan_of plan.now.arena).frames (map node_of made.nodes)) made.root
        ≡ rows_of (plan_of plan.now.arena) plan.now.root) }
    ensures low { IfOk result (λ made.
        AreLow (schema_of (over (plan_of plan.now.arena).frames (map node_of made.nodes)))
        (map node_of made.nodes)) }
    ensures bounded { IfOk result (λ made. (limit : ℕ)
        → AreWithin (plan_of plan.now.arena) plan.now.root limit
        → AreWithin (over (plan_of plan.now.arena).frames (map node_of made.nodes)) made.root limit) }
    ensures whole { IfOk result (λ made. AreUnder (map node_of made.nodes) made.root) }
    ensures last { IfOk result (λ made. made.root + 1 ≡ length made.nodes) }
    ensures sorts { IfOk result (λ made.
        is_sort (node_at (plan_of plan.now.arena).nodes plan.now.root) ≡ true
        → sorting_of (node_at (map node_of made.nodes) made.root)
        ≡ sorting_of (node_at (plan_of plan.now.arena).nodes plan.now.root)) }
    ensures literals { IfOk result (λ made.
        AddsNoLiteral (plan_of plan.now.arena).nodes (map node_of made.nodes)) }
    ensures few { IfOk result (λ made. length made.nodes
        ≤ 2 * nodes_counted (plan_of plan.now.arena).nodes plan.now.root) }
    ensures small { OnOk result
        (nodes_counted (plan_of plan.now.arena).nodes plan.now.root ≤ 2048) }
    ensures err { IfErr result (IsTooLarge (plan_of plan.now.arena).nodes plan.now.root) }
{
    let arena = plan.arena();
    let root = plan.root();
    if count_under(alloc, arena.nodes.as_slice(), root as usize)? > MOST_UNDER {
        return Err(PipeError::TooMany(MOST_NODES));
    }
    frames_fit(arena.frames.as_slice());
    let mut nodes = List::new(alloc);
    let none = Batch::Plain(List::new(alloc));
    let root = rewrite(alloc, plan, &mut nodes, root, none)?;
    Ok(Rewritten { nodes, root })
}
