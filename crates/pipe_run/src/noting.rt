//! Rounds whose lanes' notes go into one list.

ghost use Rattle.std.specs.List.{AllByRecursion};
ghost use Rattle.std.specs.Prelude.{◌≡◌, ◌<◌, ◌≤◌, length, All, IfOk, IfErr};
ghost use Rattle.pipe_chain.specs.Counts.{AllWithin};
ghost use Rattle.pipe_run.specs.Claimed.{schema_in, IsOfSchema, entries_at, chunks_lot, parts_lot};
ghost use Rattle.pipe_run.specs.Dealt.{AreAlike, DoTheSame, WentAll, TellsFirst};
ghost use Rattle.pipe_run.specs.Dealt.{counts_in, IsOverIn, rows_of_all};
ghost use Rattle.pipe_run.specs.Lanes.{IsFit, IsCalm};
ghost use Rattle.pipe_run.specs.Flushes.{flushed_in, IsFlushFit, rows_of_parts};
ghost use Rattle.pipe_run.specs.Notes.{HasNothing, entries_of_parts};
ghost use Rattle.pipe_run.specs.Noted.{IsNotedSince, DealtNoted};

use crate::all_flushers::flush_round;
use crate::all_lanes::round;
use crate::lane::Lane;
use crate::note::Note;
use crate::note_lists::drain_notes;
use crate::stage::LaneFault;
use pipe_chain::{FlushParts, Operator};
use pipe_ops::{Morsel, PExecutionContext, Sink};
use pipe_schema::Gate;
use std::alloc::Global;
use std::thread::Threads;

/// A round; what its lanes noted goes behind other notes, lane after lane, and the lanes keep nothing of it.
/// The refusals are those of `round`, and `Memory` where there is no room for the notes.
pub fn noted_round<R: Threads + Sync, O: Operator, K: Sink, G: Gate + Sync>(
    rt: &R,
    alloc: Global,
    context: &PExecutionContext,
    shared: &[O::Shared],
    morsels: &[Morsel],
    gate: &G,
    lanes: &mut [Lane<O, K>],
    notes: &mut Vec<Note>,
) -> Result<(), LaneFault>
    requires some { 0 < length lanes.old }
    requires lanes { length lanes.old ≤ 256 }
    requires few { length morsels.now < 4294967295 }
    requires schema { All (IsOfSchema (schema_in morsels.now)) morsels.now }
    requires alike { AreAlike O.Operator (schema_in morsels.now) shared.now lanes.old }
    requires calm { All IsCalm lanes.old }
    requires fit { All (IsFit O.Operator K.Sink shared.now context.now.row_limit
        (schema_in morsels.now)) lanes.old }
    requires empty { AllByRecursion HasNothing lanes.old }
    ensures same { DoTheSame O.Operator K.Sink lanes.old lanes.new }
    ensures alike { AreAlike O.Operator (schema_in morsels.now) shared.now lanes.new }
    ensures fit { All (IsFit O.Operator K.Sink shared.now context.now.row_limit
        (schema_in morsels.now)) lanes.new }
    ensures calm { IfOk result (λ _. All IsCalm lanes.new) }
    ensures went { IfOk result (λ _. WentAll O.Operator K.Sink shared.now (schema_in morsels.now)
        (rows_of_all morsels.now) lanes.old lanes.new) }
    ensures within { IfOk result (λ _. AllWithin context.now.row_limit (counts_in lanes.new)) }
    ensures dealt { IfOk result (λ _. DealtNoted O.Operator K.Sink shared.now context.now.row_limit
        (chunks_lot morsels.now) lanes.old lanes.new notes.old.items notes.new.items) }
    ensures noted { IfOk result (λ _. IsNotedSince (length lanes.old) (length morsels.now)
        (entries_at morsels.now) notes.old.items notes.new.items) }
    ensures none { IfOk result (λ _. AllByRecursion HasNothing lanes.new) }
    ensures told { IfErr result (TellsFirst lanes.new) }
    ensures over { IfErr result (IsOverIn O.Operator shared.now context.now.row_limit
        (schema_in morsels.now) (rows_of_all morsels.now) lanes.old lanes.new) }
{
    if let Err(refusal) = round(rt, alloc, context, shared, morsels, gate, lanes) {
        return Err(refusal);
    }
    let Ok(()) = drain_notes(lanes, notes) else {
        return Err(LaneFault::Memory);
    };
    Ok(())
}

/// A round of a flush; what its lanes noted goes behind other notes, lane after lane, and the lanes keep
/// nothing of it. The refusals are those of `flush_round`, and `Memory` where there is no room for the notes.
pub fn noted_flush<R: Threads + Sync, O: FlushParts, K: Sink, G: Gate + Sync>(
    rt: &R,
    alloc: Global,
    context: &PExecutionContext,
    own: &O::Shared,
    others: &[O::Shared],
    gate: &G,
    lanes: &mut [Lane<O, K>],
    notes: &mut Vec<Note>,
) -> Result<(), LaneFault>
    requires some { 0 < length lanes.old }
    requires lanes { length lanes.old ≤ 256 }
    requires few { O.parts own.now < 4294967295 }
    requires alike { AreAlike O.Operator (flushed_in O.Operator lanes.old) others.now lanes.old }
    requires calm { All IsCalm lanes.old }
    requires fit { All (IsFlushFit O.Operator K.Sink own.now others.now context.now.row_limit
        (flushed_in O.Operator lanes.old)) lanes.old }
    requires empty { AllByRecursion HasNothing lanes.old }
    ensures same { DoTheSame O.Operator K.Sink lanes.old lanes.new }
    ensures alike { AreAlike O.Operator (flushed_in O.Operator lanes.old) others.now lanes.new }
    ensures fit { All (IsFlushFit O.Operator K.Sink own.now others.now context.now.row_limit
        (flushed_in O.Operator lanes.old)) lanes.new }
    ensures calm { IfOk result (λ _. All IsCalm lanes.new) }
    ensures went { IfOk result (λ _. WentAll O.Operator K.Sink others.now
        (flushed_in O.Operator lanes.old) (rows_of_parts O.parts O.part_of own.now)
        lanes.old lanes.new) }
    ensures within { IfOk result (λ _. AllWithin context.now.row_limit (counts_in lanes.new)) }
    ensures dealt { IfOk result (λ _. DealtNoted O.Operator K.Sink others.now context.now.row_limit
        (parts_lot O.parts O.part_of (flushed_in O.Operator lanes.old) own.now) lanes.old lanes.new
        notes.old.items notes.new.items) }
    ensures noted { IfOk result (λ _. IsNotedSince (length lanes.old) (O.parts own.now)
        (entries_of_parts (O.parts own.now)) notes.old.items notes.new.items) }
    ensures none { IfOk result (λ _. AllByRecursion HasNothing lanes.new) }
    ensures told { IfErr result (TellsFirst lanes.new) }
    ensures over { IfErr result (IsOverIn O.Operator others.now context.now.row_limit
        (flushed_in O.Operator lanes.old) (rows_of_parts O.parts O.part_of own.now)
        lanes.old lanes.new) }
{
    if let Err(refusal) = flush_round(rt, alloc, context, own, others, gate, lanes) {
        return Err(refusal);
    }
    let Ok(()) = drain_notes(lanes, notes) else {
        return Err(LaneFault::Memory);
    };
    Ok(())
}
