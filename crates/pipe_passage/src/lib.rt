//! A leg that runs: lanes over the operators of a plan, with seats at the flags of their joins.
#![tactic(auto)]

mod closing;
mod leaving;
mod opening;
mod passage;
mod settling;

pub use closing::close_passage;
pub use leaving::leave_first;
pub use opening::open_passage;
pub use passage::Passage;
pub use settling::settle_first;
