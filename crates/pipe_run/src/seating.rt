//! The seats of a round's claims, given to the lanes and taken back.

ghost use Rattle.std.specs.Prelude.{◌≡◌, ◌+◌, ◌<◌, ◌≤◌, ◌++◌, All, length, map, vec_len, vec_capacity};
ghost use Rattle.std.specs.List.{flat_map};
ghost use Rattle.pipe_chain.specs.Claims.{IsClaimantOf, all_drawn};
ghost use Rattle.pipe_run.specs.Claimed.{IsSeated, drawn_in};
ghost use Rattle.pipe_run.specs.Seats.{IsFreshOf, seated, unseated};

use crate::lane::Lane;
use pipe_chain::{ClaimSeat, Claims};

/// Gives each lane a seat.
pub(crate) fn seat_all<O, K>(claims: &Claims, lanes: &mut [Lane<O, K>], seats: &mut Vec<ClaimSeat>)
    requires enough { length lanes.old ≤ vec_len seats.old }
    requires fresh { All (IsFreshOf claims.now.table) seats.old.items }
    ensures lanes { lanes.new ≡ map (seated claims.now.table) lanes.old }
    ensures left { vec_len seats.new + length lanes.old ≡ vec_len seats.old }
    ensures room { vec_capacity seats.new ≡ vec_capacity seats.old }
{
    let Some((lane, rest)) = lanes.split_first_mut() else {
        return;
    };
    lane.seat = seats.pop();
    seat_all(claims, rest, seats);
}

/// Takes the seat of a lane back.
fn hand_back<O, K>(claims: &Claims, lane: &mut Lane<O, K>, seats: &mut Vec<ClaimSeat>)
    requires seated { IsSeated claims.now.table lane.old }
    requires own { All (IsClaimantOf claims.now.table) seats.old.items }
    requires room { vec_len seats.old < vec_capacity seats.old }
    ensures lane { lane.new ≡ unseated lane.old }
    ensures own { All (IsClaimantOf claims.now.table) seats.new.items }
    ensures len { vec_len seats.new ≡ vec_len seats.old + 1 }
    ensures room { vec_capacity seats.new ≡ vec_capacity seats.old }
    ensures drawn { all_drawn seats.new.items ≡ all_drawn seats.old.items ++ drawn_in lane.old }
{
    match lane.seat.take() {
        Some(seat) => seats.push_reserved(seat),
        None => unreachable!(),
    }
}

/// Takes the seat of each lane back.
#[tactic(auto, using(crate::proofs::SeatSteps::head_seated, crate::proofs::SeatSteps::tail_seated))]
pub(crate) fn unseat_all<O, K>(
    claims: &Claims,
    lanes: &mut [Lane<O, K>],
    seats: &mut Vec<ClaimSeat>,
)
    requires seated { All (IsSeated claims.now.table) lanes.old }
    requires own { All (IsClaimantOf claims.now.table) seats.old.items }
    requires room { vec_len seats.old + length lanes.old ≤ vec_capacity seats.old }
    ensures lanes { lanes.new ≡ map unseated lanes.old }
    ensures own { All (IsClaimantOf claims.now.table) seats.new.items }
    ensures len { vec_len seats.new ≡ vec_len seats.old + length lanes.old }
    ensures drawn { all_drawn seats.new.items
        ≡ all_drawn seats.old.items ++ flat_map drawn_in lanes.old }
{
    let Some((lane, rest)) = lanes.split_first_mut() else {
        return;
    };
    hand_back(claims, lane, seats);
    unseat_all(claims, rest, seats);
}
