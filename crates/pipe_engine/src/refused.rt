//! A run ends since a node has too many rows.

ghost use Rattle.std.specs.Prelude.{◌≡◌, ℕ, length};
ghost use Rattle.pipe_slots.specs.SlotTables.{slot_at, seats_at};
ghost use Rattle.pipe_passage.specs.LaneSeats.{IsRest};
ghost use Rattle.pipe_passage.specs.Stopped.{HoldSeats};
ghost use Rattle.pipe_engine.specs.Asked.{stop_of};
ghost use Rattle.pipe_engine.specs.Refused.{SlotsOnce, IsTold};

use pipe_driver::RunError;
use pipe_index::HashesKeys;
use pipe_passage::{Passage, close_passage};
use pipe_rows::KeyHasher;
use pipe_slots::{PhysSink, Slots};
use std::alloc::Global;

/// Closes the flags of all joins whose tables stand in their slots: each of their keys was won by one seat, once.
fn close_slots<H: HashesKeys>(alloc: Global, nodes: u32, slots: &mut Slots<H>)
    requires nodes { length slots.old.slots.items ≡ nodes }
    requires seated { length slots.old.seats.items ≡ nodes }
    requires rest { (j : ℕ) → IsRest 0 (slot_at slots.old.slots.items j)
        (seats_at slots.old.seats.items j) }
    ensures { SlotsOnce slots.old }
{
    for node in 0..nodes {
        slots.close_probe(alloc, node);
    }
}

/// What is told of a run that ends so. That a node has more rows than the limit is told once all flags are closed: had a
/// key been won twice, a join would have given rows of it twice, and they would be counted as such.
pub(crate) fn told<H: KeyHasher>(
    alloc: Global,
    nodes: u32,
    slots: &mut Slots<H>,
    passage: &mut Passage<H, PhysSink<H>>,
    error: RunError,
) -> RunError
    requires nodes { length slots.old.slots.items ≡ nodes }
    requires seated { length slots.old.seats.items ≡ nodes }
    requires rest { (j : ℕ) → IsRest 0 (slot_at slots.old.slots.items j)
        (seats_at slots.old.seats.items j) }
    requires held { (n : ℕ) → error ≡ RunError.TooMany n → HoldSeats H.hash_of
        passage.old.lanes.items passage.old.shared.items passage.old.seats.items }
    ensures told { IsTold H.hash_of slots.old passage.old error result }
    ensures calm { stop_of result ≡ stop_of error }
{
    match error {
        RunError::TooMany(node) => {
            close_slots(alloc, nodes, slots);
            match close_passage(passage) {
                Ok(()) => RunError::TooMany(node),
                Err(_) => RunError::Memory,
            }
        }
        RunError::Stopped => RunError::Stopped,
        RunError::Memory => RunError::Memory,
    }
}
