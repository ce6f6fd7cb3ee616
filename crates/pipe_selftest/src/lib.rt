//! The self-test: two frames that a generator draws, and the inner, the left and the full join of them on their keys.
//! Its numbers are those of the joins' rows.
#![tactic(auto)]

mod arena;
mod frames;
mod joins;
mod lines;
mod running;
mod words;

pub use arena::selftest_arena;
pub use lines::selftest_lines;
pub use running::{JoinCounts, selftest};
pub use words::{rows_in, start_in};
