//! Jobs as JSON values, and values as compact text.
//!
//! What is spelled here is what the reader of jobs reads: the value of a job spells that job, and the text of a value
//! reads as the value.
#![tactic(auto)]

mod cells;
mod columns;
mod exprs;
mod frames;
mod jobs;
mod joins;
mod laws;
mod lists;
mod literals;
mod nodes;
mod numbers;
mod object;
mod packed;
mod spell;
mod text;
mod writing;

pub use jobs::{job_line, value_of_job};
pub use laws::{no_floats, spelled_with_other_nodes};
pub use literals::has_known_literals;
pub use spell::Spell;
pub use text::line_of_value;
