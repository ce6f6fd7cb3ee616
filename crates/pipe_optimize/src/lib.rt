//! Plans rewritten: filters stand as low as they can, and columns that nobody needs are left out.
#![tactic(auto)]

mod all_needed;
mod first_places;
mod full;
mod name_lists;
mod name_run;
mod names;
mod narrowing;
mod needed;
mod outputs;
mod passes;
mod reads;
mod trimming;
mod unrenamed;

pub use passes::optimize;
pub use pipe_rules::Rewritten;
