//! What the stages of a leg read is taken out of the slots, and put back.

ghost use Rattle.std.specs.Prelude.{◌≡◌, ◌<◌, [], length, IfOk, OnOk};
ghost use Rattle.pipe_run.specs.Stages.{operators_of};
ghost use Rattle.pipe_slots.specs.SlotTables.{slot_at};
ghost use Rattle.pipe_slots.specs.declared.slot.Slot.TheVariants as kept;
ghost use Rattle.pipe_engine.specs.Carried.{IsBack, ReadsNothing};
ghost use Rattle.pipe_engine.specs.Taken.{IsOwn, IsTaken, IsTakenBehind, IsApart, AreApart};

use pipe_chain::FlagSeat;
use pipe_index::HashesKeys;
use pipe_run::Stage;
use pipe_schema::List;
use pipe_slots::{PhysOperator, Slot, Slots};
use std::alloc::{AllocError, Global};
use std::collections::VecDeque;

/// Takes what an operator reads, with the seats there.
fn take_own<H: HashesKeys>(
    alloc: Global,
    slots: &mut Slots<H>,
    operator: &PhysOperator<H>,
) -> (Slot<H>, List<FlagSeat>)
    requires there { IsApart operator.now [] (length slots.old.slots.items) }
    requires seats_there { IsApart operator.now [] (length slots.old.seats.items) }
    ensures { IsOwn operator.now slots.old slots.new result.0 result.1 }
{
    match operator {
        PhysOperator::PlaceHolder(place) => {
            let node = place.node();
            let slot = slots.take(node);
            let seats = slots.take_seats(alloc, node);
            (slot, seats)
        }
        PhysOperator::Filter(_) => (Slot::Empty, List::new(alloc)),
        PhysOperator::SimpleProjection(_) => (Slot::Empty, List::new(alloc)),
        PhysOperator::Projection(_) => (Slot::Empty, List::new(alloc)),
        PhysOperator::Hstack(_) => (Slot::Empty, List::new(alloc)),
        PhysOperator::Function(_) => (Slot::Empty, List::new(alloc)),
        PhysOperator::Pass(_) => (Slot::Empty, List::new(alloc)),
        PhysOperator::CallBack(_) => (Slot::Empty, List::new(alloc)),
    }
}

/// Takes what some stages read, behind what was taken before.
#[tactic(auto, using(crate::proofs::Takes::others_apart))]
fn take_all<H: HashesKeys>(
    alloc: Global,
    slots: &mut Slots<H>,
    stages: &[Stage<PhysOperator<H>>],
    shared: &mut Vec<Slot<H>>,
    seats: &mut Vec<List<FlagSeat>>,
) -> Result<(), AllocError>
    requires apart { AreApart (operators_of stages.now) (length slots.old.slots.items) }
    requires seats_apart { AreApart (operators_of stages.now) (length slots.old.seats.items) }
    ensures { OnOk result (IsTakenBehind (operators_of stages.now) slots.old slots.new
        shared.old.items shared.new.items seats.old.items seats.new.items) }
{
    let Some((stage, others)) = stages.split_first() else {
        return Ok(());
    };
    let (slot, free) = take_own(alloc, slots, &stage.operator);
    shared.push(slot)?;
    seats.push(free)?;
    take_all(alloc, slots, others, shared, seats)
}

/// Takes what the stages of a leg read out of the slots, stage by stage, with the seats there.
pub(crate) fn take_slots<H: HashesKeys>(
    alloc: Global,
    slots: &mut Slots<H>,
    stages: &[Stage<PhysOperator<H>>],
) -> Result<(Vec<Slot<H>>, Vec<List<FlagSeat>>), AllocError>
    requires apart { AreApart (operators_of stages.now) (length slots.old.slots.items) }
    requires seats_apart { AreApart (operators_of stages.now) (length slots.old.seats.items) }
    ensures { IfOk result (λ r. IsTaken (operators_of stages.now) slots.old slots.new r.0.items
        r.1.items) }
{
    let mut shared = Vec::new(alloc);
    let mut seats = Vec::new(alloc);
    take_all(alloc, slots, stages, &mut shared, &mut seats)?;
    Ok((shared, seats))
}

/// Puts back what a stage read, if it read anything, with the seats there.
pub(crate) fn put_back<H: HashesKeys>(
    slots: &mut Slots<H>,
    node: u32,
    slot: Slot<H>,
    seats: List<FlagSeat>,
)
    requires empty { slot_at slots.old.slots.items node ≡ kept.Empty }
    requires there { (slot ≡ kept.Empty → ⊥) → node < length slots.old.slots.items }
    requires seats_there { (slot ≡ kept.Empty → ⊥) → node < length slots.old.seats.items }
    ensures { IsBack node slot seats slots.old slots.new }
{
    match slot {
        Slot::Empty => drop(seats),
        slot => {
            slots.put(node, slot);
            slots.put_seats(node, seats);
        }
    }
}

/// How many partitions of so many a leg's stages may flush: none where none of them reads flags.
pub(crate) fn flushed_parts<H: HashesKeys>(shared: &[Slot<H>], parts: u32) -> u32 {
    for slot in shared {
        match slot {
            Slot::Full(_) => return parts,
            Slot::Empty | Slot::Keys(_) | Slot::Rows(_) | Slot::Spent => (),
        }
    }
    0
}

/// Whether the first stage reads nothing.
pub(crate) fn reads_nothing<H: HashesKeys>(shared: &VecDeque<Slot<H>>) -> bool
    requires { 0 < length shared.now.items }
    ensures { ReadsNothing result shared.now.items }
{
    match &shared[0] {
        Slot::Empty => true,
        Slot::Keys(_) | Slot::Rows(_) | Slot::Full(_) | Slot::Spent => false,
    }
}
