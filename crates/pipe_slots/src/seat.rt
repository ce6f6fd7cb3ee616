//! The seat of an operator at the flags of its join.

ghost use Rattle.std.specs.Prelude.{◌≡◌, Some, None};
ghost use Rattle.pipe_slots.specs.CallBackWords.{seat_in};
ghost use Rattle.pipe_slots.specs.Seats.{seat_of, probe_with, with_seat, IsFreeProbe};

use crate::call_back::CallBack;
use crate::phys_operator::PhysOperator;
use pipe_chain::FlagSeat;
use pipe_index::HashesKeys;

impl<H: HashesKeys> CallBack<H> {
    /// Takes a seat at the flags of the join's table.
    pub fn attach(&mut self, seat: FlagSeat)
        requires { IsFreeProbe self.old }
        ensures { self.new ≡ probe_with (Some seat) self.old }
    {
        match self {
            CallBack::Join(_) | CallBack::Cross(_) => unreachable!(),
            CallBack::Full(probe) => probe.attach(seat),
            CallBack::Mark(probe) => probe.attach(seat),
        }
    }

    /// Hands the seat back, if one is held.
    pub fn detach(&mut self) -> Option<FlagSeat>
        ensures seat { result ≡ seat_in self.old }
        ensures none { self.new ≡ probe_with None self.old }
    {
        match self {
            CallBack::Join(_) | CallBack::Cross(_) => None,
            CallBack::Full(probe) => probe.detach(),
            CallBack::Mark(probe) => probe.detach(),
        }
    }
}

impl<H: HashesKeys> PhysOperator<H> {
    /// Hands the seat back, if one is held.
    pub fn detach(&mut self) -> Option<FlagSeat>
        ensures seat { result ≡ seat_of self.old }
        ensures none { self.new ≡ with_seat None self.old }
    {
        match self {
            PhysOperator::CallBack(probe) => probe.detach(),
            PhysOperator::Filter(_)
            | PhysOperator::SimpleProjection(_)
            | PhysOperator::Projection(_)
            | PhysOperator::Hstack(_)
            | PhysOperator::Function(_)
            | PhysOperator::Pass(_)
            | PhysOperator::PlaceHolder(_) => None,
        }
    }
}
