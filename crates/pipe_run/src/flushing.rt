//! A lane that claims partitions of a flush.

ghost use Rattle.std.specs.Prelude.{◌≡◌, ◌+◌, ◌<◌, ◌≤◌, ◌++◌, [], length, true, IfOk, IfErr, OnOk, vec_len, vec_capacity};
ghost use Rattle.std.specs.List.{AllByRecursion};
ghost use Rattle.pipe_chain.specs.Chain.{works_of, acts_of, IsChain, AllServe, SameWork};
ghost use Rattle.pipe_chain.specs.Counts.{AllWithin, Went};
ghost use Rattle.pipe_run.specs.Claimed.{drawn_in, entries_for_part, parts_lot, IsSeated, IsAtEnd, Took};
ghost use Rattle.pipe_run.specs.Flushes.{flushed_by, IsFlushFit, IsPopped, IsTakenOff, HasStage, AllTakenOff};
ghost use Rattle.pipe_run.specs.Lanes.{Ran, IsCalm, IsFit};
ghost use Rattle.pipe_run.specs.Stages.{operators_of, nodes_of, counts, IsOver, Flushed};

use crate::claiming::{draw, make_room};
use crate::draining::drain;
use crate::entry::Entry;
use crate::lane::Lane;
use crate::stage::{LaneFault, SinkStage, Stage};
use pipe_chain::{Claims, FlushParts, Operator};
use pipe_ops::{PExecutionContext, Sink};
use pipe_schema::Gate;
use std::alloc::{AllocError, Global};

/// Takes the first stage off a lane.
fn pop_stage<O, K>(lane: &mut Lane<O, K>) -> Stage<O>
    requires { HasStage lane.old }
    ensures { IsPopped result lane.old lane.new }
{
    let Some(stage) = lane.stages.pop_front() else {
        unreachable!()
    };
    stage
}

/// Takes the first operator off a lane, to be flushed.
fn take_off<O: Drop, K>(lane: &mut Lane<O, K>) -> Result<(), AllocError>
    requires { HasStage lane.old }
    ensures { OnOk result (IsTakenOff lane.old lane.new) }
{
    let stage = pop_stage(lane);
    lane.flushers.push(stage)?;
    Ok(())
}

/// Takes the first operator off each lane, to be flushed: nothing more comes into it.
pub fn take_first<O: Drop, K>(lanes: &mut [Lane<O, K>]) -> Result<(), AllocError>
    requires { AllByRecursion HasStage lanes.old }
    ensures { OnOk result (AllTakenOff lanes.old lanes.new) }
{
    let Some((lane, others)) = lanes.split_first_mut() else {
        return Ok(());
    };
    take_off(lane)?;
    take_first(others)
}

/// Flushes a partition through the operators behind it into a sink. `TooMany` with a node that has more rows than the
/// limit; `Memory`.
pub fn drain_part<O: FlushParts, K: Sink>(
    alloc: Global,
    context: &PExecutionContext,
    own: &O::Shared,
    others: &[O::Shared],
    operator: &mut O,
    rest: &mut [Stage<O>],
    target: &mut SinkStage<K>,
    part: u32,
) -> Result<(), LaneFault>
    requires part { part < O.parts own.now }
    requires closed { O.closed operator.old own.now }
    requires begun { O.idle operator.old }
    requires idle { AllByRecursion O.idle (operators_of rest.old) }
    requires serves { AllServe O.Operator (operators_of rest.old) others.now }
    requires chain { IsChain O.Operator (O.flushed operator.old) (operators_of rest.old)
        (K.schema target.old.sink) }
    requires within { AllWithin context.now.row_limit (counts rest.old target.old) }
    requires held { length (K.held target.old.sink) ≤ target.old.given }
    ensures flushed { Flushed O.Operator own.now operator.old operator.new }
    ensures work { SameWork O.Operator (operators_of rest.old) (operators_of rest.new) }
    ensures nodes { nodes_of rest.new target.new ≡ nodes_of rest.old target.old }
    ensures setting { K.setting target.new.sink ≡ K.setting target.old.sink }
    ensures schema { K.schema target.new.sink ≡ K.schema target.old.sink }
    ensures gives { K.gives target.new.sink ≡ K.gives target.old.sink }
    ensures over_now { IfOk result (λ _. O.idle operator.new) }
    ensures idle { IfOk result (λ _. AllByRecursion O.idle (operators_of rest.new)) }
    ensures within { IfOk result (λ _. AllWithin context.now.row_limit
        (counts rest.new target.new)) }
    ensures room { IfOk result (λ _. length (K.held target.new.sink) ≤ target.new.given) }
    ensures went { IfOk result (λ _. Went (works_of O.Operator (O.flushed operator.old)
        (operators_of rest.old) others.now)
        (acts_of O.Operator (operators_of rest.old)) (acts_of O.Operator (operators_of rest.new))
        (counts rest.old target.old) (counts rest.new target.new) (O.part_of own.now part)
        (K.held target.old.sink) (K.held target.new.sink)) }
    ensures over { IfErr result (IsOver context.now.row_limit (works_of O.Operator
        (O.flushed operator.old) (operators_of rest.old) others.now)
        (acts_of O.Operator (operators_of rest.old)) (acts_of O.Operator (operators_of rest.new))
        (counts rest.old target.old) (nodes_of rest.old target.old) (O.part_of own.now part)) }
{
    operator.begin_flush(part);
    drain(alloc, context, own, others, operator, rest, target)
}

/// Flushes a partition through the stages of a lane, which keeps what is refused.
fn flush_behind<O: FlushParts, K: Sink>(
    alloc: Global,
    context: &PExecutionContext,
    own: &O::Shared,
    others: &[O::Shared],
    operator: &mut O,
    lane: &mut Lane<O, K>,
    part: u32,
)
    requires part { part < O.parts own.now }
    requires calm { IsCalm lane.old }
    requires closed { O.closed operator.old own.now }
    requires idle { O.idle operator.old }
    requires fit { IsFit O.Operator K.Sink others.now context.now.row_limit
        (O.flushed operator.old) lane.old }
    ensures flushed { Flushed O.Operator own.now operator.old operator.new }
    ensures idle { IsCalm lane.new → O.idle operator.new }
    ensures fit { IsFit O.Operator K.Sink others.now context.now.row_limit
        (O.flushed operator.old) lane.new }
    ensures ran { Ran O.Operator K.Sink others.now context.now.row_limit
        (O.flushed operator.old) (O.part_of own.now part) lane.old lane.new }
    ensures seat { lane.new.seat ≡ lane.old.seat }
    ensures entries { lane.new.entries ≡ lane.old.entries }
    ensures flushers { lane.new.flushers ≡ lane.old.flushers }
{
    let stages = lane.stages.make_contiguous();
    match drain_part(
        alloc,
        context,
        own,
        others,
        operator,
        stages,
        &mut lane.target,
        part,
    ) {
        Ok(()) => {}
        Err(refusal) => lane.refused = Some(refusal),
    }
}

/// Flushes a partition of the last operator that was taken off a lane.
fn run_part<O: FlushParts, K: Sink>(
    alloc: Global,
    context: &PExecutionContext,
    own: &O::Shared,
    others: &[O::Shared],
    lane: &mut Lane<O, K>,
    part: u32,
)
    requires part { part < O.parts own.now }
    requires calm { IsCalm lane.old }
    requires fit { IsFlushFit O.Operator K.Sink own.now others.now context.now.row_limit
        (flushed_by O.Operator lane.old) lane.old }
    ensures fit { IsFlushFit O.Operator K.Sink own.now others.now context.now.row_limit
        (flushed_by O.Operator lane.old) lane.new }
    ensures ran { Ran O.Operator K.Sink others.now context.now.row_limit
        (flushed_by O.Operator lane.old) (O.part_of own.now part) lane.old lane.new }
    ensures seat { lane.new.seat ≡ lane.old.seat }
    ensures entries { lane.new.entries ≡ lane.old.entries }
{
    let Some(mut flusher) = lane.flushers.pop() else {
        unreachable!()
    };
    let operator = &mut flusher.operator;
    flush_behind(alloc, context, own, others, operator, lane, part);
    lane.flushers.push_reserved(flusher);
}

/// Flushes a partition that a lane took, behind the gate.
fn flush_part<O: FlushParts, K: Sink, G: Gate>(
    alloc: Global,
    context: &PExecutionContext,
    own: &O::Shared,
    others: &[O::Shared],
    lane: &mut Lane<O, K>,
    part: u32,
    gate: &G,
    worker: u32,
)
    requires part { part < O.parts own.now }
    requires room { vec_len lane.old.entries + 2 ≤ vec_capacity lane.old.entries }
    requires calm { IsCalm lane.old }
    requires fit { IsFlushFit O.Operator K.Sink own.now others.now context.now.row_limit
        (flushed_by O.Operator lane.old) lane.old }
    ensures fit { IsFlushFit O.Operator K.Sink own.now others.now context.now.row_limit
        (flushed_by O.Operator lane.old) lane.new }
    ensures ran { Ran O.Operator K.Sink others.now context.now.row_limit
        (flushed_by O.Operator lane.old) (O.part_of own.now part) lane.old lane.new }
    ensures seat { lane.new.seat ≡ lane.old.seat }
    ensures entries { lane.new.entries.items ≡ lane.old.entries.items ++ entries_for_part part }
{
    lane.entries.push_reserved(Entry::Flush { part });
    lane.entries.push_reserved(Entry::Done);
    gate.enter(worker);
    run_part(alloc, context, own, others, lane, part);
}

/// Claims partitions and flushes each, up to the first number past them, or until something is refused.
pub(crate) fn flush_parts<O: FlushParts, K: Sink, G: Gate>(
    alloc: Global,
    context: &PExecutionContext,
    own: &O::Shared,
    others: &[O::Shared],
    lane: &mut Lane<O, K>,
    claims: &Claims,
    gate: &G,
    worker: u32,
)
    requires few { O.parts own.now < 4294967295 }
    requires seated { IsSeated claims.now.table lane.old }
    requires fresh { drawn_in lane.old ≡ [] }
    requires calm { IsCalm lane.old }
    requires fit { IsFlushFit O.Operator K.Sink own.now others.now context.now.row_limit
        (flushed_by O.Operator lane.old) lane.old }
    ensures seated { IsSeated claims.now.table lane.new }
    ensures fit { IsFlushFit O.Operator K.Sink own.now others.now context.now.row_limit
        (flushed_by O.Operator lane.old) lane.new }
    ensures took { Took O.Operator K.Sink others.now context.now.row_limit
        (parts_lot O.parts O.part_of (flushed_by O.Operator lane.old) own.now)
        (drawn_in lane.new) lane.old lane.new }
    ensures end { IsAtEnd (parts_lot O.parts O.part_of (flushed_by O.Operator lane.old) own.now)
        lane.new }
{
    let parts = O::part_count(own) as u64;
    loop {
        if !make_room(lane) {
            return;
        }
        let number = draw(claims, lane);
        if number >= parts {
            return;
        }
        flush_part(
            alloc,
            context,
            own,
            others,
            lane,
            number as u32,
            gate,
            worker,
        );
        if lane.refused.is_some() {
            return;
        }
    }
}
