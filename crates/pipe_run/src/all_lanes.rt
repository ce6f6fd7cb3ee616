//! All lanes at once.

ghost use Rattle.std.specs.Prelude.{◌≡◌, ℕ, ◌<◌, ◌≤◌, length, All, IfOk, IfErr, slice_index_or};
ghost use Rattle.pipe_run.specs.Claimed.{schema_in, IsOfSchema, IsFresh, drawn_in, IsSeated};
ghost use Rattle.pipe_run.specs.Claimed.{IsAtEnd, Took, chunks_lot};
ghost use Rattle.pipe_chain.specs.Counts.{AllWithin};
ghost use Rattle.pipe_run.specs.Dealt.{Dealt, Drawn, AreAlike, DoTheSame, WentAll, TellsFirst};
ghost use Rattle.pipe_run.specs.Dealt.{counts_in, IsOverIn, rows_of_all};
ghost use Rattle.pipe_run.specs.Lanes.{IsFit, IsCalm};

use crate::claiming::take_chunks;
use crate::lane::Lane;
use crate::seating::{seat_all, unseat_all};
use crate::stage::LaneFault;
use crate::telling::{check_counts, first_refusal};
use pipe_chain::{Claims, Operator};
use pipe_ops::{Morsel, PExecutionContext, Sink};
use pipe_schema::Gate;
use std::alloc::Global;
use std::thread;
use std::thread::Threads;

/// Each lane claims chunks and works on them, in a thread of its own where one can be made.
fn run_lanes<R: Threads + Sync, O: Operator, K: Sink, G: Gate + Sync>(
    rt: &R,
    alloc: Global,
    context: &PExecutionContext,
    shared: &[O::Shared],
    claims: &Claims,
    morsels: &[Morsel],
    gate: &G,
    lanes: &mut [Lane<O, K>],
)
    requires lanes { length lanes.old ≤ 256 }
    requires few { length morsels.now < 4294967295 }
    requires schema { All (IsOfSchema (schema_in morsels.now)) morsels.now }
    requires seated { All (IsSeated claims.now.table) lanes.old }
    requires fresh { All IsFresh lanes.old }
    requires calm { All IsCalm lanes.old }
    requires fit { All (IsFit O.Operator K.Sink shared.now context.now.row_limit
        (schema_in morsels.now)) lanes.old }
    ensures len { length lanes.new ≡ length lanes.old }
    ensures seated { All (IsSeated claims.now.table) lanes.new }
    ensures fit { All (IsFit O.Operator K.Sink shared.now context.now.row_limit
        (schema_in morsels.now)) lanes.new }
    ensures took { (i : ℕ) (d : _) → i < length lanes.old → Took O.Operator K.Sink shared.now
        context.now.row_limit (chunks_lot morsels.now) (drawn_in (slice_index_or lanes.new i d))
        (slice_index_or lanes.old i d) (slice_index_or lanes.new i d) }
    ensures end { All (IsAtEnd (chunks_lot morsels.now)) lanes.new }
{
    let threads = lanes.len().max(1);
    thread::for_each_mut(
        rt,
        lanes,
        threads,
        &|i: usize, lane: &mut Lane<O, K>| -> ()
            requires there { i < 256 }
            requires few { length morsels.now < 4294967295 }
            requires schema { All (IsOfSchema (schema_in morsels.now)) morsels.now }
            requires seated { IsSeated claims.now.table lane.old }
            requires fresh { IsFresh lane.old }
            requires calm { IsCalm lane.old }
            requires fit { IsFit O.Operator K.Sink shared.now context.now.row_limit
                (schema_in morsels.now) lane.old }
        {
            take_chunks(
                alloc, context, shared, lane, claims, morsels, gate, i as u32,
            )
        },
    );
}

/// All lanes take the chunks, by claims that are made for them. `Memory` where the claims can't be made: then no
/// lane took anything. What a lane is refused it keeps.
fn deal<R: Threads + Sync, O: Operator, K: Sink, G: Gate + Sync>(
    rt: &R,
    alloc: Global,
    context: &PExecutionContext,
    shared: &[O::Shared],
    morsels: &[Morsel],
    gate: &G,
    lanes: &mut [Lane<O, K>],
) -> Result<(), LaneFault>
    requires some { 0 < length lanes.old }
    requires lanes { length lanes.old ≤ 256 }
    requires few { length morsels.now < 4294967295 }
    requires schema { All (IsOfSchema (schema_in morsels.now)) morsels.now }
    requires calm { All IsCalm lanes.old }
    requires fit { All (IsFit O.Operator K.Sink shared.now context.now.row_limit
        (schema_in morsels.now)) lanes.old }
    ensures fit { All (IsFit O.Operator K.Sink shared.now context.now.row_limit
        (schema_in morsels.now)) lanes.new }
    ensures drawn { IfOk result (λ _. Drawn O.Operator K.Sink shared.now context.now.row_limit
        (chunks_lot morsels.now) lanes.old lanes.new) }
    ensures memory { IfErr result (λ r. (r ≡ LaneFault.Memory) × (lanes.new ≡ lanes.old)) }
{
    let Ok((claims, mut seats)) = Claims::new(alloc, lanes.len() as u32) else {
        return Err(LaneFault::Memory);
    };
    seat_all(&claims, lanes, &mut seats);
    run_lanes(rt, alloc, context, shared, &claims, morsels, gate, lanes);
    unseat_all(&claims, lanes, &mut seats);
    claims.close(seats);
    Ok(())
}

/// A round: all lanes take some chunks, each chunk by the lane that claims it, one by one, behind the gate. With
/// `Ok` each chunk was taken by one lane, once, and all lanes together are within the limit. Where a lane was
/// refused something, the refusal of the least such lane is told, and the lane keeps it. `TooMany` with a node
/// that has more rows than the limit, in one lane or in all; `Memory`.
pub fn round<R: Threads + Sync, O: Operator, K: Sink, G: Gate + Sync>(
    rt: &R,
    alloc: Global,
    context: &PExecutionContext,
    shared: &[O::Shared],
    morsels: &[Morsel],
    gate: &G,
    lanes: &mut [Lane<O, K>],
) -> Result<(), LaneFault>
    requires some { 0 < length lanes.old }
    requires lanes { length lanes.old ≤ 256 }
    requires few { length morsels.now < 4294967295 }
    requires schema { All (IsOfSchema (schema_in morsels.now)) morsels.now }
    requires alike { AreAlike O.Operator (schema_in morsels.now) shared.now lanes.old }
    requires calm { All IsCalm lanes.old }
    requires fit { All (IsFit O.Operator K.Sink shared.now context.now.row_limit
        (schema_in morsels.now)) lanes.old }
    ensures same { DoTheSame O.Operator K.Sink lanes.old lanes.new }
    ensures alike { AreAlike O.Operator (schema_in morsels.now) shared.now lanes.new }
    ensures fit { All (IsFit O.Operator K.Sink shared.now context.now.row_limit
        (schema_in morsels.now)) lanes.new }
    ensures calm { IfOk result (λ _. All IsCalm lanes.new) }
    ensures dealt { IfOk result (λ _. Dealt O.Operator K.Sink shared.now context.now.row_limit
        (chunks_lot morsels.now) lanes.old lanes.new) }
    ensures went { IfOk result (λ _. WentAll O.Operator K.Sink shared.now (schema_in morsels.now)
        (rows_of_all morsels.now) lanes.old lanes.new) }
    ensures within { IfOk result (λ _. AllWithin context.now.row_limit (counts_in lanes.new)) }
    ensures told { IfErr result (TellsFirst lanes.new) }
    ensures over { IfErr result (IsOverIn O.Operator shared.now context.now.row_limit
        (schema_in morsels.now) (rows_of_all morsels.now) lanes.old lanes.new) }
{
    let Ok(()) = deal(rt, alloc, context, shared, morsels, gate, lanes) else {
        return Err(LaneFault::Memory);
    };
    match first_refusal(lanes) {
        Some(refusal) => Err(refusal),
        None => check_counts(context, lanes),
    }
}
