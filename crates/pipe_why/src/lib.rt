//! Why a job can't be run: what keeps it from that, in words for people.
//!
//! A text is told of a job whose numbers or plan have a fault; and of a good job what it will do.
#![tactic(auto)]

mod bad_joins;
mod bad_nodes;
mod bad_sorts;
mod config;
mod duplicates;
mod faults;
mod formulas;
mod inputs;
mod matches;
mod mistyped;
mod node_words;
mod origins;
mod outcome;
mod unknown;

pub use config::push_config;
pub use faults::fault_text;
pub use matches::{Matches, matches_of};
pub use outcome::outcome_text;
pub use unknown::push_columns;
