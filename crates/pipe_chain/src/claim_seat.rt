//! A seat at claims.

use crate::claim_rule::TableClaimant;
use std::marker::Model;

/// The right to draw numbers from one `Claims`. A clause sees which it drew.
#[derive(Drop)]
pub struct ClaimSeat {
    pub(crate) seat: TableClaimant,
}

impl Model for ClaimSeat {
    ghost use Rattle.std.specs.Prelude.{◌≡◌, []};
    ghost use Rattle.pipe_chain.specs.Claims.{SeatClaims};

    ghost Value = { SeatClaims };

    ghost view = { λ s. record { table = s.seat.table_id; drawn = s.seat.me.0.drawn } };

    ghost invariant = { λ s. (s.seat.me.0.parts ≡ 1) × (s.seat.me.1 ≡ []) };
}
