//! Operators in a row of which some mark keys of their join's built side: what is given for rows, and what for keys
//! that a seat was the first to mark. And what the threads of a join share: match flags, each set by the first seat
//! that marks its key, and claims, numbers that each go to one seat.
//!
//! Flags and claims hold for every interleaving of the seats' steps, which are single atomic steps; nothing here waits.
#![tactic(auto)]

mod claim_rule;
mod claim_seat;
mod claims;
mod flag_rule;
mod flag_seat;
mod flags;
mod flushing;
mod laws;
mod marked;
mod match_flags;
mod operator;
mod plain;
mod word_laws;

pub use claim_seat::ClaimSeat;
pub use claims::Claims;
pub use flag_seat::FlagSeat;
pub use flags::Flags;
pub use flushing::FlushParts;
pub use laws::{flows_add_up, plain_chains_work_row_by_row};
pub use marked::Marked;
pub use match_flags::MatchFlags;
pub use operator::Operator;
pub use plain::PlainOperator;
pub use word_laws::{each_key_is_won_once, each_number_is_drawn_once};
