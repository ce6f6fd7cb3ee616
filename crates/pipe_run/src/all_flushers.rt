//! All lanes at once flush what an operator keeps.

ghost use Rattle.std.specs.Prelude.{◌≡◌, ℕ, ◌<◌, ◌≤◌, length, All, IfOk, IfErr, slice_index_or};
ghost use Rattle.pipe_chain.specs.Counts.{AllWithin};
ghost use Rattle.pipe_run.specs.Claimed.{IsFresh, drawn_in, IsSeated, IsAtEnd, Took, parts_lot};
ghost use Rattle.pipe_run.specs.Dealt.{Dealt, Drawn, AreAlike, DoTheSame, WentAll, TellsFirst};
ghost use Rattle.pipe_run.specs.Dealt.{counts_in, IsOverIn};
ghost use Rattle.pipe_run.specs.Flushes.{flushed_by, flushed_in, IsFlushFit, IsOwnFit, rows_of_parts};
ghost use Rattle.pipe_run.specs.Lanes.{IsCalm};

use crate::flushing::flush_parts;
use crate::lane::Lane;
use crate::seating::{seat_all, unseat_all};
use crate::stage::LaneFault;
use crate::telling::{check_counts, first_refusal};
use pipe_chain::{Claims, FlushParts};
use pipe_ops::{PExecutionContext, Sink};
use pipe_schema::Gate;
use std::alloc::Global;
use std::thread;
use std::thread::Threads;

/// Each lane claims partitions and flushes them, in a thread of its own where one can be made.
fn run_flushers<R: Threads + Sync, O: FlushParts, K: Sink, G: Gate + Sync>(
    rt: &R,
    alloc: Global,
    context: &PExecutionContext,
    own: &O::Shared,
    others: &[O::Shared],
    claims: &Claims,
    gate: &G,
    lanes: &mut [Lane<O, K>],
)
    requires lanes { length lanes.old ≤ 256 }
    requires few { O.parts own.now < 4294967295 }
    requires seated { All (IsSeated claims.now.table) lanes.old }
    requires fresh { All IsFresh lanes.old }
    requires calm { All IsCalm lanes.old }
    requires fit { All (IsOwnFit O.Operator K.Sink own.now others.now context.now.row_limit)
        lanes.old }
    ensures len { length lanes.new ≡ length lanes.old }
    ensures seated { All (IsSeated claims.now.table) lanes.new }
    ensures fit { (i : ℕ) (d : _) → i < length lanes.old → IsFlushFit O.Operator K.Sink own.now
        others.now context.now.row_limit (flushed_by O.Operator (slice_index_or lanes.old i d))
        (slice_index_or lanes.new i d) }
    ensures took { (i : ℕ) (d : _) → i < length lanes.old → Took O.Operator K.Sink others.now
        context.now.row_limit
        (parts_lot O.parts O.part_of (flushed_by O.Operator (slice_index_or lanes.old i d)) own.now)
        (drawn_in (slice_index_or lanes.new i d))
        (slice_index_or lanes.old i d) (slice_index_or lanes.new i d) }
    ensures end { (i : ℕ) (d : _) → i < length lanes.old → IsAtEnd
        (parts_lot O.parts O.part_of (flushed_by O.Operator (slice_index_or lanes.old i d)) own.now)
        (slice_index_or lanes.new i d) }
{
    let threads = lanes.len().max(1);
    thread::for_each_mut(
        rt,
        lanes,
        threads,
        &|i: usize, lane: &mut Lane<O, K>| -> ()
            requires there { i < 256 }
            requires few { O.parts own.now < 4294967295 }
            requires seated { IsSeated claims.now.table lane.old }
            requires fresh { IsFresh lane.old }
            requires calm { IsCalm lane.old }
            requires fit { IsOwnFit O.Operator K.Sink own.now others.now context.now.row_limit
                lane.old }
        { flush_parts(alloc, context, own, others, lane, claims, gate, i as u32) },
    );
}

/// All lanes flush the partitions, by claims that are made for them. `Memory` where the claims can't be made: then no
/// lane flushed anything. What a lane is refused it keeps.
fn deal_parts<R: Threads + Sync, O: FlushParts, K: Sink, G: Gate + Sync>(
    rt: &R,
    alloc: Global,
    context: &PExecutionContext,
    own: &O::Shared,
    others: &[O::Shared],
    gate: &G,
    lanes: &mut [Lane<O, K>],
) -> Result<(), LaneFault>
    requires some { 0 < length lanes.old }
    requires lanes { length lanes.old ≤ 256 }
    requires few { O.parts own.now < 4294967295 }
    requires calm { All IsCalm lanes.old }
    requires fit { All (IsFlushFit O.Operator K.Sink own.now others.now context.now.row_limit
        (flushed_in O.Operator lanes.old)) lanes.old }
    ensures fit { All (IsFlushFit O.Operator K.Sink own.now others.now context.now.row_limit
        (flushed_in O.Operator lanes.old)) lanes.new }
    ensures drawn { IfOk result (λ _. Drawn O.Operator K.Sink others.now context.now.row_limit
        (parts_lot O.parts O.part_of (flushed_in O.Operator lanes.old) own.now) lanes.old lanes.new) }
    ensures memory { IfErr result (λ r. (r ≡ LaneFault.Memory) × (lanes.new ≡ lanes.old)) }
{
    let Ok((claims, mut seats)) = Claims::new(alloc, lanes.len() as u32) else {
        return Err(LaneFault::Memory);
    };
    seat_all(&claims, lanes, &mut seats);
    run_flushers(rt, alloc, context, own, others, &claims, gate, lanes);
    unseat_all(&claims, lanes, &mut seats);
    claims.close(seats);
    Ok(())
}

/// A round of a flush: all lanes flush the partitions of what they share, each partition by the lane that claims it,
/// one by one, behind the gate, through the operators behind the one that was taken off. With `Ok` each partition was
/// flushed by one lane, once, and all lanes together are within the limit. Refusals are those of `round`.
pub fn flush_round<R: Threads + Sync, O: FlushParts, K: Sink, G: Gate + Sync>(
    rt: &R,
    alloc: Global,
    context: &PExecutionContext,
    own: &O::Shared,
    others: &[O::Shared],
    gate: &G,
    lanes: &mut [Lane<O, K>],
) -> Result<(), LaneFault>
    requires some { 0 < length lanes.old }
    requires lanes { length lanes.old ≤ 256 }
    requires few { O.parts own.now < 4294967295 }
    requires alike { AreAlike O.Operator (flushed_in O.Operator lanes.old) others.now lanes.old }
    requires calm { All IsCalm lanes.old }
    requires fit { All (IsFlushFit O.Operator K.Sink own.now others.now context.now.row_limit
        (flushed_in O.Operator lanes.old)) lanes.old }
    ensures same { DoTheSame O.Operator K.Sink lanes.old lanes.new }
    ensures alike { AreAlike O.Operator (flushed_in O.Operator lanes.old) others.now lanes.new }
    ensures fit { All (IsFlushFit O.Operator K.Sink own.now others.now context.now.row_limit
        (flushed_in O.Operator lanes.old)) lanes.new }
    ensures calm { IfOk result (λ _. All IsCalm lanes.new) }
    ensures dealt { IfOk result (λ _. Dealt O.Operator K.Sink others.now context.now.row_limit
        (parts_lot O.parts O.part_of (flushed_in O.Operator lanes.old) own.now) lanes.old lanes.new) }
    ensures went { IfOk result (λ _. WentAll O.Operator K.Sink others.now
        (flushed_in O.Operator lanes.old) (rows_of_parts O.parts O.part_of own.now)
        lanes.old lanes.new) }
    ensures within { IfOk result (λ _. AllWithin context.now.row_limit (counts_in lanes.new)) }
    ensures told { IfErr result (TellsFirst lanes.new) }
    ensures over { IfErr result (IsOverIn O.Operator others.now context.now.row_limit
        (flushed_in O.Operator lanes.old) (rows_of_parts O.parts O.part_of own.now)
        lanes.old lanes.new) }
{
    let Ok(()) = deal_parts(rt, alloc, context, own, others, gate, lanes) else {
        return Err(LaneFault::Memory);
    };
    match first_refusal(lanes) {
        Some(refusal) => Err(refusal),
        None => check_counts(context, lanes),
    }
}
