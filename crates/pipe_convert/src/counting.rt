//! How many legs of branches feed each sink, and how many go through each node.

ghost use Rattle.std.specs.Prelude.{◌≡◌, ℕ, ◌+◌, ◌==◌, length, max, IfOk, OnOk};
ghost use Rattle.pipe_plan.specs.Plan.{plan_of};
ghost use Rattle.pipe_driver.specs.Branches.{branches as branches_of_plan};
ghost use Rattle.pipe_driver.specs.Texts.{between};
ghost use Rattle.pipe_driver.specs.Legs.{ways_of};
ghost use Rattle.pipe_driver.specs.Numbers.{named_sinks, sink_number};
ghost use Rattle.pipe_driver.specs.Ways.{one, occurs, feeds, passes};
ghost use Rattle.pipe_driver.specs.Tables.{number_at};
ghost use Rattle.pipe_convert.specs.Counts.{sinks_numbered, branch_numbered, numbered, bound_of, bound, branch_through, gone_through, sinks_behind};

use pipe_check::CheckedPlan;
use pipe_driver::{Branch, SinkCounts, SinkNode};
use std::alloc::{AllocError, Global};

/// How many legs of a plan's branches feed each sink, by its number, and how many go through each node.
#[derive(Drop)]
pub struct LegCounts {
    pub sinks: SinkCounts,
    pub probers: SinkCounts,
}

/// Room for a number.
fn reach(counts: &mut SinkCounts, number: u32) -> Result<(), AllocError>
    ensures length { OnOk result
        (length counts.new.left.items ≡ max (length counts.old.left.items) (number + 1)) }
    ensures same { OnOk result ((k : ℕ) → number_at counts.new.left.items k
        ≡ number_at counts.old.left.items k) }
{
    for _ in counts.left.len()..number as usize + 1 {
        counts.left.push(0)?;
    }
    Ok(())
}

/// One more of a number. More than 32 bits count is want of memory.
fn add_one(counts: &mut SinkCounts, number: u32) -> Result<(), AllocError>
    ensures length { OnOk result
        (length counts.new.left.items ≡ max (length counts.old.left.items) (number + 1)) }
    ensures all { OnOk result ((k : ℕ) → number_at counts.new.left.items k
        ≡ number_at counts.old.left.items k + one (number == k)) }
{
    reach(counts, number)?;
    if counts.left_at(number) == u32::MAX {
        return Err(AllocError);
    }
    counts.add(number);
    Ok(())
}

/// The operators of a branch between two of its sinks.
#[tactic(auto, using(pipe_driver::proofs::Between::between_cut))]
pub fn operators_between(operators: &[u32], first: usize, offset: usize) -> &[u32]
    ensures { result.now ≡ between operators.now first offset }
{
    let end = offset.min(operators.len());
    let start = first.min(end);
    &operators[start..end]
}

/// One more of each of some nodes.
fn add_nodes(probers: &mut SinkCounts, nodes: &[u32]) -> Result<(), AllocError>
    ensures { OnOk result ((k : ℕ) → number_at probers.new.left.items k
        ≡ number_at probers.old.left.items k + occurs k nodes.now) }
{
    for node in nodes {
        add_one(probers, *node)?;
    }
    Ok(())
}

/// The legs of a branch, each with its sink and the nodes that it goes through.
fn add_legs(counts: &mut LegCounts, operators: &[u32], sinks: &[SinkNode]) -> Result<(), AllocError>
    ensures length { OnOk result (length counts.new.sinks.left.items
        ≡ bound_of (length counts.old.sinks.left.items) sinks.now) }
    ensures sinks { OnOk result ((k : ℕ) → number_at counts.new.sinks.left.items k
        ≡ number_at counts.old.sinks.left.items k + sinks_numbered k sinks.now) }
    ensures probers { OnOk result ((n : ℕ) → number_at counts.new.probers.left.items n
        ≡ number_at counts.old.probers.left.items n
        + sinks_behind n operators.now 0 sinks.now) }
{
    let mut first = 0;
    for sink in sinks {
        let offset = sink.offset as usize;
        add_nodes(
            &mut counts.probers,
            operators_between(operators, first, offset),
        )?;
        add_one(&mut counts.sinks, sink.count)?;
        first = offset;
    }
    Ok(())
}

/// The counts of some branches.
fn counts_of(alloc: Global, branches: &[Branch]) -> Result<LegCounts, AllocError>
    ensures length { IfOk result (λ c. length c.sinks.left.items ≡ bound 0 branches.now) }
    ensures sinks { IfOk result (λ c. (k : ℕ) → number_at c.sinks.left.items k
        ≡ numbered k branches.now) }
    ensures probers { IfOk result (λ c. (n : ℕ) → number_at c.probers.left.items n
        ≡ gone_through n branches.now) }
{
    let mut counts = LegCounts {
        sinks: SinkCounts::new(alloc, 0)?,
        probers: SinkCounts::new(alloc, 0)?,
    };
    for branch in branches {
        let operators = branch.operators.as_slice();
        add_legs(&mut counts, operators, branch.sinks.as_slice())?;
    }
    Ok(counts)
}

/// The counts of a checked plan's branches, before the first of them runs.
pub fn branch_counts(
    alloc: Global,
    plan: &CheckedPlan,
    branches: &[Branch],
) -> Result<LegCounts, AllocError>
    requires cut { let checked = plan_of plan.now.arena in
        branches.now ≡ branches_of_plan checked plan.now.root }
    ensures many { let checked = plan_of plan.now.arena in
        IfOk result (λ c. length c.sinks.left.items
        ≡ length (named_sinks checked plan.now.root)) }
    ensures sinks { let checked = plan_of plan.now.arena in
        let root = plan.now.root in
        IfOk result (λ c. (s : ℕ) → number_at c.sinks.left.items (sink_number checked root s)
        ≡ feeds s (ways_of checked root)) }
    ensures probers { let checked = plan_of plan.now.arena in
        let root = plan.now.root in
        IfOk result (λ c. (n : ℕ) → number_at c.probers.left.items n
        ≡ passes n (ways_of checked root)) }
{
    plan.known_well_formed();
    let counts = counts_of(alloc, branches)?;
    Ok(counts)
}
