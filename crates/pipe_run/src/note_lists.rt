//! What lanes noted goes into one list, lane after lane.

ghost use Rattle.std.specs.Prelude.{◌≡◌, ◌+◌, ◌≤◌, ◌++◌, length, map, OnOk};
ghost use Rattle.std.specs.List.{AllByRecursion};
ghost use Rattle.pipe_run.specs.Notes.{entries_in, notes_of, notes_from, IsKept, AllKept, HasNothing};

use crate::lane::Lane;
use crate::note::Note;
use std::alloc::AllocError;

/// What a lane noted goes behind other notes, and the lane keeps nothing of it.
fn drain_lane<O, K>(
    lane: &mut Lane<O, K>,
    worker: u32,
    notes: &mut Vec<Note>,
) -> Result<(), AllocError>
    ensures notes { OnOk result (notes.new.items
        ≡ notes.old.items ++ notes_of worker lane.old.entries.items) }
    ensures kept { IsKept lane.old lane.new }
    ensures none { OnOk result (HasNothing lane.new) }
{
    for entry in lane.entries.as_slice() {
        notes.push(Note {
            worker,
            entry: *entry,
        })?;
    }
    lane.entries.clear();
    Ok(())
}

/// What lanes noted goes behind other notes, where the first of them has a place among more.
#[tactic(auto, using(crate::proofs::Kept::kept_head))]
fn drain_from<O, K>(
    lanes: &mut [Lane<O, K>],
    worker: u32,
    notes: &mut Vec<Note>,
) -> Result<(), AllocError>
    requires few { worker + length lanes.old ≤ 256 }
    ensures notes { OnOk result (notes.new.items
        ≡ notes.old.items ++ notes_from worker (map entries_in lanes.old)) }
    ensures kept { AllKept lanes.old lanes.new }
    ensures none { OnOk result (AllByRecursion HasNothing lanes.new) }
{
    let Some((lane, others)) = lanes.split_first_mut() else {
        return Ok(());
    };
    let Ok(()) = drain_lane(lane, worker, notes) else {
        return Err(AllocError);
    };
    drain_from(others, worker + 1, notes)
}

/// What lanes noted goes behind other notes, lane after lane, each entry with its lane's place. The lanes keep nothing of
/// it, and are as they were otherwise.
pub fn drain_notes<O, K>(lanes: &mut [Lane<O, K>], notes: &mut Vec<Note>) -> Result<(), AllocError>
    requires few { length lanes.old ≤ 256 }
    ensures notes { OnOk result (notes.new.items
        ≡ notes.old.items ++ notes_from 0 (map entries_in lanes.old)) }
    ensures kept { AllKept lanes.old lanes.new }
    ensures none { OnOk result (AllByRecursion HasNothing lanes.new) }
{
    drain_from(lanes, 0, notes)
}
