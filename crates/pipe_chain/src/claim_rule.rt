//! The rule of the claims' table, and the kinds of step on it.

ghost use Rattle.pipe_chain.specs.ClaimRule.{ClaimsHold, whole_claim, spent_claim, less_one_claim, one_claim, joined_claims, EnteredClaims, DrewNumber};

use atomic_table::{Join, Play, Seat, Split, Table, TableRule};
use std::alloc::Global;
use std::collections::LinkedList;

/// The words of the claims: word 0, which stays 0, and the number of all draws.
pub(crate) type ClaimTable = Table<(), ClaimView, u32, ClaimRule, Global>;

/// A seat as the table knows it.
pub(crate) type TableClaimant = Seat<(), ClaimView>;

/// What a seat knows, in proofs alone: its share of all seats, and the numbers that it drew. No value of it is made.
pub struct ClaimView {
    pub parts: u64,
    pub drawn: LinkedList<u64>,
}

pub struct ClaimRule;

impl TableRule<(), ClaimView, u32> for ClaimRule {
    ghost holds = { ClaimsHold };

    ghost first = { whole_claim };
}

/// A seat draws the next number.
pub struct Draw;

impl Play<(), ClaimView> for Draw {
    ghost then = { DrewNumber };
}

/// A seat comes in with no part.
pub struct EnterClaims;

impl Play<(), ClaimView> for EnterClaims {
    ghost then = { EnteredClaims };
}

/// A seat with one part is split off.
pub struct OneClaimSeat;

impl Split<ClaimView> for OneClaimSeat {
    ghost left = { less_one_claim };

    ghost right = { one_claim };
}

/// A seat takes in what another drew.
pub struct BothClaimSeats;

impl Join<ClaimView> for BothClaimSeats {
    ghost both = { joined_claims };

    ghost spent = { spent_claim };
}
