//! A leg leaves its first stage.

ghost use Rattle.std.specs.Prelude.{◌≡◌, ℕ, ◌<◌, ◌∷◌, ◌++◌, List as Items, length, IfOk, OnOk};
ghost use Rattle.std.specs.List.{AllByRecursion, flat_map};
ghost use Rattle.pipe_schema.specs.declared.field.Field.{Field};
ghost use Rattle.pipe_run.specs.Flushes.{HasStage};
ghost use Rattle.pipe_passage.specs.Passages.{IsPassing, HasLeft};
ghost use Rattle.pipe_passage.specs.LaneSeats.{seats_in, front_seats, LaneOff, LanesOff, StageLeft};

use crate::passage::Passage;
use pipe_chain::FlagSeat;
use pipe_index::HashesKeys;
use pipe_ops::Sink;
use pipe_rows::KeyHasher;
use pipe_run::Lane;
use pipe_schema::List;
use pipe_slots::{PhysOperator, Slot};
use std::alloc::AllocError;
use std::collections::VecDeque;

/// Takes the first of some items.
fn take_front<T>(items: &mut VecDeque<T>) -> T
    requires { 0 < length items.old.items }
    ensures { items.old.items ≡ result ∷ items.new.items }
{
    let Some(first) = items.pop_front() else {
        unreachable!()
    };
    first
}

/// Puts a seat, if there is one, to others.
fn put_seat(seat: Option<FlagSeat>, free: &mut List<FlagSeat>) -> Result<(), AllocError>
    ensures { OnOk result (free.new ≡ free.old ++ seats_in seat) }
{
    match seat {
        Some(seat) => free.push(seat),
        None => Ok(()),
    }
}

/// Takes the first stage off a lane; its seat, if it has one, is free again.
fn leave_lane<H: HashesKeys, K>(
    lane: &mut Lane<PhysOperator<H>, K>,
    free: &mut List<FlagSeat>,
) -> Result<(), AllocError>
    requires { HasStage lane.old }
    ensures lane { OnOk result (LaneOff lane.old lane.new) }
    ensures free { OnOk result (free.new ≡ free.old ++ front_seats lane.old) }
{
    let mut stage = take_front(&mut lane.stages);
    put_seat(stage.operator.detach(), free)?;
    lane.flushers.push(stage)?;
    Ok(())
}

/// Takes the first stage off each lane, the first lane's before the others'; their seats are free again.
#[tactic(auto, using(crate::proofs::Left::staged_rest))]
fn leave_lanes<H: HashesKeys, K: Drop>(
    lanes: &mut Vec<Lane<PhysOperator<H>, K>>,
    free: &mut List<FlagSeat>,
) -> Result<(), AllocError>
    requires { AllByRecursion HasStage lanes.old.items }
    ensures lanes { OnOk result (LanesOff lanes.old.items lanes.new.items) }
    ensures free { OnOk result (free.new ≡ free.old ++ flat_map front_seats lanes.old.items) }
{
    let Some(mut lane) = lanes.pop() else {
        return Ok(());
    };
    leave_lanes(lanes, free)?;
    leave_lane(&mut lane, free)?;
    lanes.push(lane)?;
    Ok(())
}

/// Takes the first stage off each lane, with what it reads and all seats there.
pub(crate) fn leave_stage<H: HashesKeys, K: Drop>(
    passage: &mut Passage<H, K>,
) -> Result<(Slot<H>, List<FlagSeat>), AllocError>
    requires stages { AllByRecursion HasStage passage.old.lanes.items }
    requires shared { 0 < length passage.old.shared.items }
    requires seats { 0 < length passage.old.seats.items }
    ensures { IfOk result (λ r. StageLeft r.0 r.1 passage.old.lanes.items passage.new.lanes.items
        passage.old.shared.items passage.new.shared.items passage.old.seats.items
        passage.new.seats.items) }
{
    let slot = take_front(&mut passage.shared);
    let mut seats = take_front(&mut passage.seats);
    leave_lanes(&mut passage.lanes, &mut seats)?;
    Ok((slot, seats))
}

/// A leg leaves its first stage, to which other legs still come: what that reads, with all seats of its join.
pub fn leave_first<H: KeyHasher, K: Sink + Drop>(
    passage: &mut Passage<H, K>,
) -> Result<(Slot<H>, List<FlagSeat>), AllocError>
    requires stages { AllByRecursion HasStage passage.old.lanes.items }
    requires shared { 0 < length passage.old.shared.items }
    requires seats { 0 < length passage.old.seats.items }
    ensures { IfOk result (λ r. (limit : ℕ) (from : Items Field) →
        IsPassing H.hash_of K.Sink limit from passage.old.lanes.items passage.old.shared.items
        passage.old.seats.items →
        HasLeft H.hash_of K.Sink limit from r.0 r.1 passage.old.lanes.items
        passage.new.lanes.items passage.old.shared.items passage.new.shared.items
        passage.old.seats.items passage.new.seats.items) }
{
    leave_stage(passage)
}
