//! The lanes of a leg at its start.

ghost use Rattle.std.specs.Prelude.{◌≡◌, ℕ, ◌+◌, ◌<◌, ◌≤◌, ◌++◌, ◌∷◌, [], length, All, None, IfOk, OnOk};
ghost use Rattle.std.specs.List.{AllByRecursion};
ghost use Rattle.pipe_run.specs.Opens.{IsCopy};
ghost use Rattle.pipe_slots.specs.JoinWords.{suits_join};
ghost use Rattle.pipe_passage.specs.Opening.{ProbeOpened};
ghost use Rattle.pipe_passage.specs.Passages.{phys_words, HasOpened};
ghost use Rattle.pipe_slots.specs.PhysWords.{kind_at, suits_of};
ghost use Rattle.pipe_passage.specs.LaneSeats.{IsPlanned, ArePlanned, IsRest, AllRest, HasMore, HasSeats};
ghost use Rattle.pipe_passage.specs.LaneSeats.{has_flags, OperatorOpened, StageOpened, StagesOpened, LaneOpened, LanesOpened};

use crate::passage::Passage;
use pipe_chain::{FlagSeat, Operator};
use pipe_index::HashesKeys;
use pipe_ops::Sink;
use pipe_rows::KeyHasher;
use pipe_run::{Lane, SinkStage, Stage};
use pipe_schema::List;
use pipe_slots::{CallBack, PhysOperator, PlaceHolder, Slot};
use std::alloc::{AllocError, Global};
use std::collections::VecDeque;
use std::mem::replace;

/// Takes the last of some seats.
fn next_seat(alloc: Global, free: &mut List<FlagSeat>) -> FlagSeat
    requires { 0 < length free.old }
    ensures { free.old ≡ free.new ++ result ∷ [] }
{
    let mut seats = replace(free, List::new(alloc)).into_vec();
    let Some(seat) = seats.pop() else {
        unreachable!()
    };
    *free = List::from_vec(seats);
    seat
}

/// Whether what is read has flags.
fn has_flags<H: HashesKeys>(slot: &Slot<H>) -> bool
    ensures { result ≡ has_flags slot.now }
{
    match slot {
        Slot::Full(_) => true,
        Slot::Empty | Slot::Keys(_) | Slot::Rows(_) | Slot::Spent => false,
    }
}

/// The probe of a join for a lane. Where what it reads has flags, it takes a seat.
fn open_probe<H: HashesKeys>(
    alloc: Global,
    slot: &Slot<H>,
    free: &mut List<FlagSeat>,
    place: &PlaceHolder,
    thread_no: usize,
) -> Result<CallBack<H>, AllocError>
    requires suits { suits_join (kind_at place.now) place.now.spec slot.now }
    requires rest { IsRest thread_no slot.now free.old }
    requires more { HasMore thread_no slot.now }
    ensures opened { IfOk result (ProbeOpened slot.now place.now free.old free.new) }
    ensures rest { OnOk result (IsRest (thread_no + 1) slot.now free.new) }
{
    let mut probe = place.split(alloc, thread_no)?;
    if !has_flags(slot) {
        return Ok(probe);
    }
    probe.attach(next_seat(alloc, free));
    Ok(probe)
}

/// A copy of an operator for a lane.
fn copied<H: KeyHasher>(
    alloc: Global,
    operator: &PhysOperator<H>,
    thread_no: usize,
) -> Result<PhysOperator<H>, AllocError>
    ensures { IfOk result (IsCopy (phys_words H.hash_of) operator.now) }
{
    let made = operator.split(alloc, thread_no)?;
    Ok(made)
}

/// The operator of a stage for a lane.
fn open_operator<H: KeyHasher>(
    alloc: Global,
    slot: &Slot<H>,
    free: &mut List<FlagSeat>,
    operator: &PhysOperator<H>,
    thread_no: usize,
) -> Result<PhysOperator<H>, AllocError>
    requires planned { IsPlanned operator.now }
    requires suits { suits_of operator.now slot.now }
    requires rest { IsRest thread_no slot.now free.old }
    requires more { HasMore thread_no slot.now }
    ensures opened { IfOk result (OperatorOpened slot.now free.old free.new operator.now) }
    ensures rest { OnOk result (IsRest (thread_no + 1) slot.now free.new) }
{
    match operator {
        PhysOperator::PlaceHolder(place) => {
            let probe = open_probe(alloc, slot, free, place, thread_no)?;
            Ok(PhysOperator::CallBack(probe))
        }
        PhysOperator::CallBack(_) => unreachable!(),
        PhysOperator::Filter(_) => copied(alloc, operator, thread_no),
        PhysOperator::SimpleProjection(_) => copied(alloc, operator, thread_no),
        PhysOperator::Projection(_) => copied(alloc, operator, thread_no),
        PhysOperator::Hstack(_) => copied(alloc, operator, thread_no),
        PhysOperator::Function(_) => copied(alloc, operator, thread_no),
        PhysOperator::Pass(_) => copied(alloc, operator, thread_no),
    }
}

/// A stage for a lane, which was given no row.
fn open_stage<H: KeyHasher>(
    alloc: Global,
    slot: &Slot<H>,
    free: &mut List<FlagSeat>,
    stage: &Stage<PhysOperator<H>>,
    thread_no: usize,
) -> Result<Stage<PhysOperator<H>>, AllocError>
    requires planned { IsPlanned stage.now.operator }
    requires suits { suits_of stage.now.operator slot.now }
    requires rest { IsRest thread_no slot.now free.old }
    requires more { HasMore thread_no slot.now }
    ensures opened { IfOk result (StageOpened slot.now free.old free.new stage.now) }
    ensures rest { OnOk result (IsRest (thread_no + 1) slot.now free.new) }
{
    let operator = open_operator(alloc, slot, free, &stage.operator, thread_no)?;
    Ok(Stage {
        operator,
        node: stage.node,
        given: 0,
    })
}

/// Stages for a lane, put to others.
fn open_stages<H: KeyHasher>(
    alloc: Global,
    shared: &[Slot<H>],
    free: &mut [List<FlagSeat>],
    stages: &[Stage<PhysOperator<H>>],
    thread_no: usize,
    made: &mut Vec<Stage<PhysOperator<H>>>,
) -> Result<(), AllocError>
    requires planned { ArePlanned shared.now stages.now }
    requires rest { AllRest thread_no shared.now free.old }
    requires more { AllByRecursion (HasMore thread_no) shared.now }
    ensures opened { OnOk result (StagesOpened shared.now free.old free.new stages.now made.old.items
        made.new.items) }
    ensures rest { OnOk result (AllRest (thread_no + 1) shared.now free.new) }
{
    let Some((stage, others)) = stages.split_first() else {
        return Ok(());
    };
    let Some((slot, later)) = shared.split_first() else {
        unreachable!()
    };
    let Some((seats, rest)) = free.split_first_mut() else {
        unreachable!()
    };
    made.push(open_stage(alloc, slot, seats, stage, thread_no)?)?;
    open_stages(alloc, later, rest, others, thread_no, made)
}

/// A lane that has done nothing, over operators with seats and a sink of its own.
fn open_lane<H: KeyHasher, K: Sink + Drop>(
    alloc: Global,
    shared: &[Slot<H>],
    free: &mut [List<FlagSeat>],
    stages: &[Stage<PhysOperator<H>>],
    target: &SinkStage<K>,
    thread_no: usize,
) -> Result<Lane<PhysOperator<H>, K>, AllocError>
    requires planned { ArePlanned shared.now stages.now }
    requires rest { AllRest thread_no shared.now free.old }
    requires more { AllByRecursion (HasMore thread_no) shared.now }
    ensures opened { IfOk result (LaneOpened K.Sink shared.now free.old free.new stages.now target.now) }
    ensures rest { OnOk result (AllRest (thread_no + 1) shared.now free.new) }
{
    let mut own = Vec::with_capacity(alloc, stages.len())?;
    open_stages(alloc, shared, free, stages, thread_no, &mut own)?;
    let sink = target.sink.split(alloc, thread_no)?;
    Ok(Lane {
        stages: VecDeque::from_vec(own),
        flushers: Vec::new(alloc),
        target: SinkStage {
            sink,
            node: target.node,
            given: 0,
        },
        seat: None,
        entries: Vec::new(alloc),
        refused: None,
    })
}

/// So many lanes, which have done nothing, over stages of a plan: each has the probes of the joins in place of their
/// places, with a seat of its own where what they read has flags. The seats that are left stay in `free`.
fn open_lanes<H: KeyHasher, K: Sink + Drop>(
    alloc: Global,
    shared: &[Slot<H>],
    free: &mut [List<FlagSeat>],
    stages: &[Stage<PhysOperator<H>>],
    target: &SinkStage<K>,
    lanes: u32,
) -> Result<Vec<Lane<PhysOperator<H>, K>>, AllocError>
    requires some { 0 < lanes }
    requires few { lanes ≤ 256 }
    requires planned { ArePlanned shared.now stages.now }
    requires rest { AllRest 0 shared.now free.old }
    requires seats { AllByRecursion (HasSeats lanes) shared.now }
    ensures len { IfOk result (λ made. length made.items ≡ lanes) }
    ensures opened { IfOk result (λ made. (limit : ℕ) → HasOpened H.hash_of K.Sink limit stages.now
        target.now shared.now free.old free.new made.items) }
{
    let mut made = Vec::with_capacity(alloc, lanes as usize)?;
    for thread_no in 0..lanes {
        let lane = open_lane(alloc, shared, free, stages, target, thread_no as usize)?;
        made.push(lane)?;
    }
    Ok(made)
}

/// A leg at its start: so many lanes over stages of a plan, with what these read, and the seats at the flags of that.
/// Each lane has the probes of the joins in place of their places, with a seat of its own where there are flags.
pub fn open_passage<H: KeyHasher, K: Sink + Drop>(
    alloc: Global,
    shared: Vec<Slot<H>>,
    mut seats: Vec<List<FlagSeat>>,
    stages: &[Stage<PhysOperator<H>>],
    target: &SinkStage<K>,
    lanes: u32,
) -> Result<Passage<H, K>, AllocError>
    requires some { 0 < lanes }
    requires few { lanes ≤ 256 }
    requires planned { ArePlanned shared.items stages.now }
    requires rest { AllRest 0 shared.items seats.items }
    requires enough { AllByRecursion (HasSeats lanes) shared.items }
    ensures len { IfOk result (λ p. length p.lanes.items ≡ lanes) }
    ensures shared { IfOk result (λ p. p.shared.items ≡ shared.items) }
    ensures opened { IfOk result (λ p. (limit : ℕ) → HasOpened H.hash_of K.Sink limit stages.now
        target.now shared.items seats.items p.seats.items p.lanes.items) }
{
    let free = seats.as_mut_slice();
    let made = open_lanes(alloc, shared.as_slice(), free, stages, target, lanes)?;
    Ok(Passage {
        lanes: made,
        shared: VecDeque::from_vec(shared),
        seats: VecDeque::from_vec(seats),
    })
}
