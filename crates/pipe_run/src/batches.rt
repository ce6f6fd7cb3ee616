//! Rounds one after another, until a source is out.

ghost use Rattle.std.specs.Prelude.{◌≡◌, ◌+◌, ◌*◌, ◌^◌, ◌<◌, ◌≤◌, [], length, All, IfOk, IfErr, Err, true};
ghost use Rattle.std.specs.List.{AllByRecursion, flat_map};
ghost use Rattle.pipe_schema.specs.Counts.{Counts};
ghost use Rattle.pipe_chain.specs.Counts.{AllWithin};
ghost use Rattle.pipe_run.specs.Dealt.{AreAlike, DoTheSame, WentAll, counts_in};
ghost use Rattle.pipe_run.specs.Halts.{stops};
ghost use Rattle.pipe_run.specs.Lanes.{IsFit, IsCalm, held_in};
ghost use Rattle.pipe_run.specs.Rounds.{left_rows, schema_left, IsLeftOf, Rounds, RoundsBefore};
ghost use Rattle.pipe_run.specs.Rounds.{TellsHalt, IsHaltOver};
ghost use Rattle.pipe_run.specs.Notes.{HasNothing};

use crate::halt::Halt;
use crate::lane::Lane;
use crate::note::Note;
use crate::noting::noted_round;
use crate::stage::LaneFault;
use pipe_chain::Operator;
use pipe_ops::{PExecutionContext, Sink, Source, SourceResult};
use pipe_schema::{Gate, StopCheck};
use std::alloc::Global;
use std::thread::Threads;

/// Rounds over what is left of a source, batch by batch, until it is out. The stop check is asked before each round.
/// With `Ok` each row went through the operators of one lane, and all lanes together are within the limit. What lanes
/// noted goes behind other notes, round after round. `Stopped` where the stop check said yes; the refusals of
/// `noted_round`; `Memory` where the source is refused it.
pub fn run_rounds<R: Threads + Sync, O: Operator, K: Sink, I: Source, C: StopCheck, G: Gate + Sync>(
    rt: &R,
    alloc: Global,
    context: &PExecutionContext,
    shared: &[O::Shared],
    source: &mut I,
    next_index: &mut u64,
    stop: &mut C,
    gate: &G,
    lanes: &mut [Lane<O, K>],
    notes: &mut Vec<Note>,
) -> Result<(), Halt>
    requires some { 0 < length lanes.old }
    requires lanes { length lanes.old ≤ 256 }
    requires schema { AllByRecursion (IsLeftOf (schema_left (I.left source.old)))
        (I.left source.old) }
    requires index { next_index.old + length (left_rows (I.left source.old))
        + 4 * context.now.workers < 2 ^ 64 }
    requires alike { AreAlike O.Operator (schema_left (I.left source.old)) shared.now lanes.old }
    requires calm { All IsCalm lanes.old }
    requires fit { All (IsFit O.Operator K.Sink shared.now context.now.row_limit
        (schema_left (I.left source.old))) lanes.old }
    requires within { AllWithin context.now.row_limit (counts_in lanes.old) }
    requires empty { AllByRecursion HasNothing lanes.old }
    ensures same { DoTheSame O.Operator K.Sink lanes.old lanes.new }
    ensures alike { AreAlike O.Operator (schema_left (I.left source.old)) shared.now lanes.new }
    ensures fit { All (IsFit O.Operator K.Sink shared.now context.now.row_limit
        (schema_left (I.left source.old))) lanes.new }
    ensures calm { IfOk result (λ _. All IsCalm lanes.new) }
    ensures rounds { IfOk result (λ _. Rounds O.Operator K.Sink shared.now context.now
        next_index.old next_index.new (I.left source.old) (I.left source.new)
        (C.asked stop.old) (C.asked stop.new) lanes.old lanes.new notes.old.items
        notes.new.items) }
    ensures none { IfOk result (λ _. AllByRecursion HasNothing lanes.new) }
    ensures out { IfOk result (λ _. left_rows (I.left source.new) ≡ []) }
    ensures went { IfOk result (λ _. WentAll O.Operator K.Sink shared.now
        (schema_left (I.left source.old)) (left_rows (I.left source.old)) lanes.old lanes.new) }
    ensures within { IfOk result (λ _. AllWithin context.now.row_limit (counts_in lanes.new)) }
    ensures room { IfOk result (λ _. length (flat_map (held_in K.held) lanes.new)
        ≤ context.now.row_limit) }
    ensures told { IfErr result (TellsHalt lanes.new) }
    ensures over { IfErr result (IsHaltOver O.Operator shared.now context.now.row_limit
        (schema_left (I.left source.old)) (left_rows (I.left source.old)) lanes.old lanes.new) }
    ensures yes { Counts (stops result) (C.yes stop.old) (C.yes stop.new) }
    ensures last { result ≡ Err Halt.Stopped → C.last_answer stop.new ≡ true }
    ensures stopped { result ≡ Err Halt.Stopped → RoundsBefore O.Operator K.Sink shared.now
        context.now next_index.old (I.left source.old) (C.asked stop.old) (C.asked stop.new)
        lanes.old lanes.new notes.old.items notes.new.items }
{
    loop {
        let Ok(answer) = source.get_batches(alloc, context, next_index) else {
            return Err(Halt::Refused(LaneFault::Memory));
        };
        match answer {
            SourceResult::Finished => return Ok(()),
            SourceResult::GotMoreData(morsels) => {
                if stop.should_stop() {
                    return Err(Halt::Stopped);
                }
                let morsels = morsels.as_slice();
                if let Err(refusal) = noted_round(
                    rt, alloc, context, shared, morsels, gate, lanes, notes,
                ) {
                    return Err(Halt::Refused(refusal));
                }
            }
        }
    }
}
