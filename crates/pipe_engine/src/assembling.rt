//! What runs pipelines, put together of what they share, and taken apart again.

ghost use Rattle.std.specs.Prelude.{◌≡◌, ℕ, ◌+◌, ◌==◌, List, [], map, IfOk, OnOk};
ghost use Rattle.pipe_driver.specs.Ways.{one, occurs, legs_through, passes};
ghost use Rattle.pipe_driver.specs.Lines.{leg_as, ways_as};
ghost use Rattle.pipe_driver.specs.Plans.{Ask, task_of, StandFor};
ghost use Rattle.pipe_driver.specs.Runs.{Between};
ghost use Rattle.pipe_driver.specs.Tables.{number_at};
ghost use Rattle.pipe_engine.specs.Engine.{engine_words, NoneOpen};
ghost use Rattle.pipe_engine.specs.Left.{AreLeft, Shares};
ghost use Rattle.pipe_engine.specs.Lent.{AreLent};
ghost use Rattle.pipe_engine.specs.Stands.{Settings};

use crate::engine::{Engine, PlanLine, PlanRun};
use crate::part::Part;
use pipe_driver::{Leg, Run, SinkCounts};
use pipe_events::Event;
use pipe_index::HashesKeys;
use pipe_ops::PExecutionContext;
use pipe_rows::partition_count;
use pipe_slots::Slots;
use std::alloc::{AllocError, Global};

/// One leg more goes through a node. More than 32 bits count is want of memory, and so is a node past the last.
fn add_node(probers: &mut SinkCounts, node: u32) -> Result<(), AllocError>
    ensures { OnOk result ((k : ℕ) → number_at probers.new.left.items k
        ≡ number_at probers.old.left.items k + one (node == k)) }
{
    if node as usize >= probers.left.len() {
        return Err(AllocError);
    }
    if probers.left_at(node) == u32::MAX {
        return Err(AllocError);
    }
    probers.add(node);
    Ok(())
}

/// One leg more goes through each of some nodes.
fn add_nodes(probers: &mut SinkCounts, nodes: &[u32]) -> Result<(), AllocError>
    ensures { OnOk result ((k : ℕ) → number_at probers.new.left.items k
        ≡ number_at probers.old.left.items k + occurs k nodes.now) }
{
    for node in nodes {
        add_node(probers, *node)?;
    }
    Ok(())
}

/// Counts legs at the nodes that they go through.
fn add_legs<H: HashesKeys>(
    probers: &mut SinkCounts,
    legs: &[Leg<Part<H>>],
) -> Result<(), AllocError>
    ensures { OnOk result ((ordered n : ℕ) → number_at probers.new.left.items n
        ≡ number_at probers.old.left.items n + legs_through n (map (leg_as ordered) legs.now)) }
{
    for leg in legs {
        add_nodes(probers, leg.operators.as_slice())?;
    }
    Ok(())
}

/// How many legs of pipelines go through each of so many nodes.
fn legs_passing<H: HashesKeys>(
    alloc: Global,
    nodes: u32,
    lines: &[PlanLine<H>],
) -> Result<SinkCounts, AllocError>
    ensures { IfOk result (λ c. (ordered n : ℕ) → number_at c.left.items n
        ≡ passes n (ways_as ordered lines.now)) }
{
    let mut probers = SinkCounts::new(alloc, nodes)?;
    for line in lines {
        add_legs(&mut probers, line.legs.as_slice())?;
    }
    Ok(probers)
}

/// What runs pipelines that are left of a plan: an engine over what they share, and how many of their legs go through each
/// node. Want of memory is told where there are more nodes than 32 bits count.
pub fn assemble_run<H: HashesKeys>(
    alloc: Global,
    context: PExecutionContext,
    slots: Slots<H>,
    counts: SinkCounts,
    journal: Vec<Event>,
    lines: &[PlanLine<H>],
) -> Result<PlanRun<H>, AllocError>
    ensures stand { IfOk result (λ run. (hash_of : H → List ℕ → ℕ) (x : Settings H) (ask : Ask) →
        AreLent hash_of x ask context slots counts lines.now →
        StandFor (engine_words hash_of x) ask run lines.now) }
    ensures left { IfOk result (λ run. (hash_of : H → List ℕ → ℕ) (x : Settings H) (ask : Ask) →
        AreLeft hash_of x ask context slots counts lines.now →
        Between (engine_words hash_of x) (task_of ask) run lines.now) }
    ensures context { IfOk result (λ run. run.runner.context ≡ context) }
    ensures journal { IfOk result (λ run. run.runner.journal ≡ journal) }
    ensures parked { IfOk result (λ run. run.parked.items ≡ []) }
    ensures counts { IfOk result (λ run. run.counts ≡ counts) }
    ensures none_open { IfOk result (λ run. NoneOpen run.runner) }
{
    let Ok(nodes) = u32::try_from(slots.slots.len()) else {
        return Err(AllocError);
    };
    let probers = legs_passing(alloc, nodes, lines)?;
    let parts = partition_count(context.workers);
    let runner = Engine::new(alloc, context, parts, nodes, slots, journal)?;
    let parked = Vec::new(alloc);
    Ok(Run {
        runner,
        parked,
        counts,
        probers,
    })
}

/// What pipelines share, how many of them still feed each sink, and the journal, given back by what ran some of them: where
/// no sink is open, nothing else is left of those.
pub fn give_back<H: HashesKeys>(run: PlanRun<H>) -> (Slots<H>, SinkCounts, Vec<Event>)
    ensures shares { Shares result.0 run.runner }
    ensures counts { result.1 ≡ run.counts }
    ensures journal { result.2 ≡ run.runner.journal }
{
    let Run {
        runner,
        parked,
        counts,
        probers,
    } = run;
    drop(parked);
    drop(probers);
    let Engine {
        context: _,
        parts: _,
        nodes: _,
        mut slots,
        given,
        sinks,
        leg,
        next_index: _,
        journal,
    } = runner;
    drop(leg);
    drop(sinks);
    slots.given = given;
    (slots, counts, journal)
}
