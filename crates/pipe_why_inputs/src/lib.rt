//! Why an input can't be read or run, in words for people: a job, and what other commands read, told apart by their
//! members.
#![tactic(auto)]

mod edits;
mod misfit;
mod reconciliation;

pub use misfit::misfit_text;
pub use pipe_why::{fault_text, outcome_text};
pub use pipe_why_text::bad_json;
