//! The last leg leaves its first stage.

ghost use Rattle.std.specs.Prelude.{◌≡◌, ℕ, ◌<◌, List, length, IfOk, IfErr};
ghost use Rattle.std.specs.List.{AllByRecursion};
ghost use Rattle.pipe_schema.specs.declared.field.Field.{Field};
ghost use Rattle.pipe_run.specs.Flushes.{HasStage};
ghost use Rattle.pipe_passage.specs.Passages.{IsPassing, IsUnderWay, HasSettled, HasFewParts};
ghost use Rattle.pipe_passage.specs.Stopped.{BreaksOff};

use crate::leaving::leave_stage;
use crate::passage::Passage;
use pipe_index::HashesKeys;
use pipe_ops::{PExecutionContext, Sink};
use pipe_rows::KeyHasher;
use pipe_run::{LaneFault, Note, noted_flush};
use pipe_schema::Gate;
use std::alloc::Global;
use std::thread::Threads;

/// The last leg leaves its first stage: the flags of its join are closed, and each partition of what that kept is
/// flushed by one lane, through the stages behind into the lanes' sinks. What lanes noted of that goes behind other notes.
/// What was read is dropped. How many partitions those were is told. `TooMany` where a node behind was given more rows
/// than the limit, as `noted_flush` tells it; `Memory`.
pub fn settle_first<R: Threads + Sync, H: KeyHasher, K: Sink + Drop, G: Gate + Sync>(
    rt: &R,
    alloc: Global,
    context: &PExecutionContext,
    passage: &mut Passage<H, K>,
    gate: &G,
    notes: &mut Vec<Note>,
) -> Result<u32, LaneFault>
    requires stages { AllByRecursion HasStage passage.old.lanes.items }
    requires shared { 0 < length passage.old.shared.items }
    requires seats { 0 < length passage.old.seats.items }
    requires parts { HasFewParts passage.old.shared.items }
    requires way { IsUnderWay H.hash_of K.Sink context.now.row_limit passage.old.lanes.items
        passage.old.shared.items passage.old.seats.items }
    ensures settled { IfOk result (λ parts. (from : List Field) →
        IsPassing H.hash_of K.Sink context.now.row_limit from passage.old.lanes.items
        passage.old.shared.items passage.old.seats.items →
        HasSettled H.hash_of K.Sink context.now.row_limit from passage.old.lanes.items
        passage.new.lanes.items passage.old.shared.items passage.new.shared.items
        passage.old.seats.items passage.new.seats.items parts notes.old.items notes.new.items) }
    ensures err { IfErr result (λ refusal. (from : List Field) → IsPassing H.hash_of K.Sink
        context.now.row_limit from passage.old.lanes.items passage.old.shared.items
        passage.old.seats.items → BreaksOff H.hash_of K.Sink context.now.row_limit from
        passage.old.lanes.items passage.new.lanes.items passage.old.shared.items
        passage.new.shared.items passage.old.seats.items passage.new.seats.items refusal) }
{
    let Ok((slot, seats)) = leave_stage(passage) else {
        return Err(LaneFault::Memory);
    };
    let kept = slot.closed(seats);
    let parts = kept.part_count();
    if parts == 0 {
        return Ok(0);
    }
    let others = passage.shared.make_contiguous();
    let lanes = passage.lanes.as_mut_slice();
    match noted_flush(rt, alloc, context, &kept, others, gate, lanes, notes) {
        Ok(()) => Ok(parts),
        Err(refusal) => Err(refusal),
    }
}
