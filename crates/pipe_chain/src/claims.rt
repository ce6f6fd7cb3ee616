//! Claims: numbers from 0 upwards, each of which goes to one seat.

ghost use Rattle.std.specs.Prelude.{◌≡◌, ℕ, ◌+◌, ◌<◌, ◌≤◌, [], ◌++◌, length, All, IfOk, vec_len};
ghost use Rattle.std.specs.List.{range_with_len};
ghost use Rattle.pipe_chain.specs.Sums.{total, SameItems};
ghost use Rattle.pipe_chain.specs.Claims.{IsClaimantOf, after_claim, fresh_claimants, all_drawn, claim_limit};

use crate::claim_rule::{
    BothClaimSeats, ClaimTable, Draw, EnterClaims, OneClaimSeat, TableClaimant,
};
use crate::claim_seat::ClaimSeat;
use atomic_table::Table;
use std::alloc::{AllocError, Global};
use std::marker::Model;

/// A counter from which seats draw, each from a thread of its own. A lane that draws the number of a chunk takes that
/// chunk.
#[derive(Drop)]
pub struct Claims {
    table: ClaimTable,
}

impl Model for Claims {
    ghost use Rattle.std.specs.Prelude.{◌≡◌};
    ghost use Rattle.pipe_chain.specs.Claims.{SharedClaims};

    ghost Value = { SharedClaims };

    ghost view = { λ c. record { table = c.table.shared.table_id; seats = c.table.shared.key } };

    ghost invariant = { λ c. (c.table.shared.table_id.words ≡ 2) × (c.table.shared.table_id.slots ≡ 0) };
}

impl Claims {
    /// Claims of which no number is drawn yet, and their seats.
    pub fn new(alloc: Global, seats: u32) -> Result<(Claims, Vec<ClaimSeat>), AllocError>
        ensures count { IfOk result (λ r. r.0.seats ≡ seats) }
        ensures seats { IfOk result (λ r. r.1.items ≡ fresh_claimants r.0.table seats) }
        ensures dealt { IfOk result (λ r. vec_len r.1 ≡ seats) }
        ensures own { IfOk result (λ r. All (IsClaimantOf r.0.table) r.1.items) }
    {
        let (table, whole): (ClaimTable, TableClaimant) = Table::of_words(alloc, &[0, 0], &seats)?;
        let claims = Claims { table };
        let dealt = claims.deal(alloc, whole, seats)?;
        Ok((claims, dealt))
    }

    #[tactic(auto, using(crate::proofs::ClaimSteps::one_more_claimant))]
    fn deal(
        &self,
        alloc: Global,
        mut whole: TableClaimant,
        seats: u32,
    ) -> Result<Vec<ClaimSeat>, AllocError>
        requires whole { whole.table_id ≡ self.now.table }
        requires parts { (whole.me.0.parts ≡ seats) × (whole.me.0.drawn ≡ []) }
        ensures seats { IfOk result (λ v. v.items ≡ fresh_claimants self.now.table seats) }
        ensures dealt { IfOk result (λ v. vec_len v ≡ seats) }
        ensures own { IfOk result (λ v. All (IsClaimantOf self.now.table) v.items) }
    {
        let mut dealt = Vec::with_capacity(alloc, seats as usize)?;
        for number in 0..seats {
            let _ = number;
            let seat = self.table.shared.split_seat::<OneClaimSeat>(&mut whole);
            dealt.push(ClaimSeat { seat })?;
        }
        Ok(dealt)
    }

    /// The next number, which no other claim draws.
    pub fn claim(&self, seat: &mut ClaimSeat) -> u64
        requires seat { seat.old.table ≡ self.now.table }
        requires limit { length seat.old.drawn < claim_limit }
        ensures drawn { seat.new ≡ after_claim seat.old result }
        ensures later { length seat.old.drawn ≤ result }
    {
        self.table.shared.fetch_add::<Draw>(&mut seat.seat, 1, 1)
    }

    fn gather(&self, whole: &mut TableClaimant, mut seats: Vec<ClaimSeat>)
        requires whole { whole.old.table_id ≡ self.now.table }
        requires seats { All (IsClaimantOf self.now.table) seats.items }
        ensures table { whole.new.table_id ≡ whole.old.table_id }
        ensures parts { whole.new.me.0.parts ≡ whole.old.me.0.parts + vec_len seats }
        ensures drawn { SameItems whole.new.me.0.drawn
            (whole.old.me.0.drawn ++ all_drawn seats.items) }
    {
        while let Some(seat) = seats.pop() {
            let ClaimSeat { seat } = seat;
            self.table.shared.join_seat::<BothClaimSeats>(whole, seat);
        }
    }

    /// How many numbers were drawn. With all seats handed back, the numbers that they drew are those below it, each
    /// drawn once.
    pub fn close(self, seats: Vec<ClaimSeat>) -> u64
        requires { All (IsClaimantOf self.table) seats.items }
        ensures { vec_len seats ≡ self.seats →
            SameItems (all_drawn seats.items) (range_with_len 0 result) }
    {
        let (_, mut whole) = self.table.shared.load_new_seat::<EnterClaims>(0);
        self.gather(&mut whole, seats);
        let Claims { table } = self;
        let closed = table.close_with(whole);
        let drawn = closed.word(1);
        closed.free();
        drawn
    }
}
