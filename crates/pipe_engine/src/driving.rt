//! The driver: legs one after another, each into its sink; a sink is closed after the last leg that feeds it.

ghost use Rattle.std.specs.Prelude.{◌≡◌, ℕ, ◌+◌, ◌<◌, [], length, drop, IfOk, IfErr, OnOk};
ghost use Rattle.pipe_driver.specs.Legs.{sink_node};
ghost use Rattle.pipe_driver.specs.Tables.{number_at};
ghost use Rattle.pipe_engine.specs.Asked.{WasAsked, stops};
ghost use Rattle.pipe_engine.specs.Engine.{IsEmptied, IsIdle};
ghost use Rattle.pipe_engine.specs.Drives.{ForSome, ForEach, CanGo, Led, CanPass, IsLeftAt, Ran, CanClose, ComesNext, IsRootNext};
ghost use Rattle.pipe_engine.specs.Drives.{AnswersAt, FedAlone, HasLowered};
ghost use Rattle.pipe_engine.specs.Journals.{Keeps, NotedAt, NotedGoing, NotedAfter, NotedThen};
ghost use Rattle.pipe_engine.specs.Paced.{HasKeptPace, TakesPaced, most_of, rows_due_from};
ghost use Rattle.pipe_engine.specs.Refused.{IsNotMany, TellsEachPlan};

use crate::engine::{PlanLine, PlanRun, Tools};
use crate::journal::close_place;
use crate::leg::{end_leg, leave_node, run_leg, settle_node};
use crate::part::Part;
use pipe_driver::{Fed, Leg, Next, Passing, PipeLine, RunError, SinkAt, node_at, park, unpark};
use pipe_ops::FinalizedSink;
use pipe_rows::KeyHasher;
use pipe_schema::{Gate, StopCheck};
use pipe_source::PhysSource;
use std::alloc::Global;
use std::collections::VecDeque;
use std::thread::Threads;

/// The rows of a leg go into its sink, and what is left of the pipeline waits there.
fn pass<R: Threads + Sync, H: KeyHasher, C: StopCheck, G: Gate + Sync>(
    alloc: Global,
    tools: &Tools<R, G>,
    stop: &mut C,
    run: &mut PlanRun<H>,
    pipelines: &VecDeque<PlanLine<H>>,
    current: PlanLine<H>,
) -> Result<Passing, RunError>
    requires idle { IsIdle run.old.runner }
    requires can { ForSome (CanGo H.hash_of run.old current pipelines.now.items) }
    ensures led { IfOk result (λ leg. ForEach (CanGo H.hash_of run.old current pipelines.now.items)
        (Led H.hash_of current run.old run.new pipelines.now.items leg)) }
    ensures noted { OnOk result (ForEach (CanGo H.hash_of run.old current pipelines.now.items)
        (Keeps run.old (NotedGoing run.old current pipelines.now.items)
        (NotedAt run.new pipelines.now.items))) }
    ensures err { IfErr result (λ e. ForEach (CanGo H.hash_of run.old current pipelines.now.items)
        (TellsEachPlan run.old.runner.context.row_limit e)) }
    ensures asked { WasAsked C.StopCheck 0 stop.old stop.new result }
    ensures paced { OnOk result (TakesPaced (most_of run.old.runner.context)
        (rows_due_from current.source) 0 (C.asked stop.old) (C.asked stop.new)) }
    ensures kept { OnOk result (HasKeptPace (C.asked stop.old) (C.asked stop.new)
        run.old.runner run.new.runner) }
    ensures context { run.new.runner.context ≡ run.old.runner.context }
    ensures sinks { run.new.runner.sinks ≡ run.old.runner.sinks }
{
    let PipeLine {
        start: _,
        source,
        mut legs,
    } = current;
    let Some(source) = source else { unreachable!() };
    let Leg {
        operators,
        at,
        count,
        part,
    } = legs.remove(0);
    run_leg(alloc, tools, stop, &mut run.runner, source, part)?;
    let Ok(()) = park(&mut run.parked, node_at(at), legs) else {
        return Err(RunError::Memory);
    };
    Ok(Passing {
        operators,
        at,
        count,
    })
}

/// A leg is counted at a node that it goes through. The last one settles it.
fn leave<R: Threads + Sync, H: KeyHasher, C: StopCheck, G: Gate + Sync>(
    alloc: Global,
    tools: &Tools<R, G>,
    stop: &mut C,
    run: &mut PlanRun<H>,
    pipelines: &VecDeque<PlanLine<H>>,
    operators: &[u32],
    place: usize,
    at: SinkAt,
) -> Result<(), RunError>
    requires there { place < length operators.now }
    requires can { ForSome
        (CanPass H.hash_of run.old (drop place operators.now) at pipelines.now.items) }
    ensures passes { OnOk result (ForEach
        (CanPass H.hash_of run.old (drop place operators.now) at pipelines.now.items)
        (IsLeftAt H.hash_of run.new (drop (place + 1) operators.now) at pipelines.now.items)) }
    ensures noted { OnOk result (ForEach
        (CanPass H.hash_of run.old (drop place operators.now) at pipelines.now.items)
        (Keeps run.old (NotedAt run.old pipelines.now.items)
        (NotedAt run.new pipelines.now.items))) }
    ensures err { IfErr result (λ e. ForEach
        (CanPass H.hash_of run.old (drop place operators.now) at pipelines.now.items)
        (TellsEachPlan run.old.runner.context.row_limit e)) }
    ensures parked { OnOk result (run.new.parked ≡ run.old.parked) }
    ensures counts { OnOk result (run.new.counts ≡ run.old.counts) }
    ensures asked { WasAsked C.StopCheck 0 stop.old stop.new result }
    ensures kept { OnOk result (HasKeptPace (C.asked stop.old) (C.asked stop.new)
        run.old.runner run.new.runner) }
    ensures context { run.new.runner.context ≡ run.old.runner.context }
    ensures sinks { run.new.runner.sinks ≡ run.old.runner.sinks }
{
    let node = operators[place];
    if run.probers.lower(node) == 0 {
        settle_node(alloc, tools, stop, &mut run.runner, node)
    } else {
        leave_node(alloc, &mut run.runner, node)
    }
}

/// Runs the first leg of a pipeline into its sink.
pub(crate) fn feed<R: Threads + Sync, H: KeyHasher, C: StopCheck, G: Gate + Sync>(
    alloc: Global,
    tools: &Tools<R, G>,
    stop: &mut C,
    run: &mut PlanRun<H>,
    pipelines: &VecDeque<PlanLine<H>>,
    current: PlanLine<H>,
) -> Result<Fed, RunError>
    requires idle { IsIdle run.old.runner }
    requires can { ForSome (CanGo H.hash_of run.old current pipelines.now.items) }
    ensures ran { IfOk result (λ fed. ForEach (CanGo H.hash_of run.old current pipelines.now.items)
        (Ran H.hash_of current run.old run.new pipelines.now.items fed)) }
    ensures lowered { IfOk result (λ fed. HasLowered fed run.old.counts run.new.counts) }
    ensures noted { IfOk result (λ fed. ForEach (CanGo H.hash_of run.old current pipelines.now.items)
        (Keeps run.old (NotedGoing run.old current pipelines.now.items)
        (NotedAfter run.new fed.at pipelines.now.items))) }
    ensures err { IfErr result (λ e. ForEach (CanGo H.hash_of run.old current pipelines.now.items)
        (TellsEachPlan run.old.runner.context.row_limit e)) }
    ensures asked { WasAsked C.StopCheck 1 stop.old stop.new result }
    ensures paced { OnOk result (TakesPaced (most_of run.old.runner.context)
        (rows_due_from current.source) 0 (C.asked stop.old) (C.asked stop.new)) }
    ensures kept { OnOk result (HasKeptPace (C.asked stop.old) (C.asked stop.new)
        run.old.runner run.new.runner) }
    ensures context { run.new.runner.context ≡ run.old.runner.context }
    ensures alone { IfOk result (λ fed. ForEach (CanGo H.hash_of run.old current pipelines.now.items)
        (FedAlone fed.at run.old run.new)) }
{
    let leg = pass(alloc, tools, stop, run, pipelines, current)?;
    leave_all(
        alloc,
        tools,
        stop,
        run,
        pipelines,
        leg.operators.as_slice(),
        leg.at,
    )?;
    end_leg(alloc, stop, &mut run.runner)?;
    let left = run.counts.lower(leg.count);
    Ok(Fed {
        at: leg.at,
        count: leg.count,
        left,
    })
}

/// A leg is counted at each node that it went through, from its source on.
fn leave_all<R: Threads + Sync, H: KeyHasher, C: StopCheck, G: Gate + Sync>(
    alloc: Global,
    tools: &Tools<R, G>,
    stop: &mut C,
    run: &mut PlanRun<H>,
    pipelines: &VecDeque<PlanLine<H>>,
    operators: &[u32],
    at: SinkAt,
) -> Result<(), RunError>
    requires runs { IsIdle run.old.runner → ⊥ }
    requires can { ForSome (CanPass H.hash_of run.old operators.now at pipelines.now.items) }
    ensures passes { OnOk result (ForEach
        (CanPass H.hash_of run.old operators.now at pipelines.now.items)
        (IsLeftAt H.hash_of run.new [] at pipelines.now.items)) }
    ensures noted { OnOk result (ForEach
        (CanPass H.hash_of run.old operators.now at pipelines.now.items)
        (Keeps run.old (NotedAt run.old pipelines.now.items)
        (NotedAt run.new pipelines.now.items))) }
    ensures err { IfErr result (λ e. ForEach
        (CanPass H.hash_of run.old operators.now at pipelines.now.items)
        (TellsEachPlan run.old.runner.context.row_limit e)) }
    ensures parked { OnOk result (run.new.parked ≡ run.old.parked) }
    ensures counts { OnOk result (run.new.counts ≡ run.old.counts) }
    ensures asked { WasAsked C.StopCheck 0 stop.old stop.new result }
    ensures kept { OnOk result (HasKeptPace (C.asked stop.old) (C.asked stop.new)
        run.old.runner run.new.runner) }
    ensures context { run.new.runner.context ≡ run.old.runner.context }
    ensures sinks { run.new.runner.sinks ≡ run.old.runner.sinks }
{
    for place in 0..operators.len() {
        leave(alloc, tools, stop, run, pipelines, operators, place, at)?;
    }
    Ok(())
}

/// Closes a sink that the last leg has fed: a build fills the slot of its join, a sort's rows are the source of the
/// pipeline that waited for it, the root's rows are the answer.
pub(crate) fn close<R: Threads + Sync, H: KeyHasher, G: Gate + Sync>(
    alloc: Global,
    tools: &Tools<R, G>,
    run: &mut PlanRun<H>,
    pipelines: &VecDeque<PlanLine<H>>,
    fed: Fed,
) -> Result<Next<PhysSource, Part<H>>, RunError>
    requires can { ForSome (CanClose H.hash_of run.old fed pipelines.now.items) }
    requires last { number_at run.old.counts.left.items fed.count ≡ 0 }
    ensures next { IfOk result (λ next. ForEach (CanClose H.hash_of run.old fed pipelines.now.items)
        (ComesNext H.hash_of run.old run.new fed pipelines.now.items next)) }
    ensures root { IfOk result (AnswersAt fed.at) }
    ensures counts { OnOk result (run.new.counts ≡ run.old.counts) }
    ensures noted { IfOk result (λ next. ForEach
        (CanClose H.hash_of run.old fed pipelines.now.items)
        (Keeps run.old (NotedAfter run.old fed.at pipelines.now.items)
        (NotedThen run.new pipelines.now.items next))) }
    ensures err { IfErr result IsNotMany }
    ensures calm { stops result ≡ 0 }
    ensures frame { IfOk result (λ next. ForEach
        (CanClose H.hash_of run.old fed pipelines.now.items) (IsRootNext next)) }
    ensures kept { OnOk result ((asked : ℕ) →
        HasKeptPace asked asked run.old.runner run.new.runner) }
    ensures context { run.new.runner.context ≡ run.old.runner.context }
    ensures sinks { IsEmptied (sink_node run.old.runner.nodes fed.at) run.old.runner.sinks.items
        run.new.runner.sinks.items }
{
    match close_place(alloc, tools, &mut run.runner, fed.at)? {
        FinalizedSink::Finished(frame) => Ok(Next::Answer(frame)),
        FinalizedSink::Operator(()) => Ok(Next::Stay),
        FinalizedSink::Source(source) => match unpark(&mut run.parked, node_at(fed.at)) {
            Some(waiting) => {
                let PipeLine {
                    start,
                    source: none,
                    legs,
                } = waiting;
                drop(none);
                Ok(Next::GoOn(PipeLine {
                    start,
                    source: Some(source),
                    legs,
                }))
            }
            None => {
                drop(source);
                Ok(Next::Stay)
            }
        },
    }
}
