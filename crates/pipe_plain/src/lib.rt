//! The plain program: what a plan's nodes give, computed by loops over lists straight from the definitions.
//!
//! The one contract used above: each answer is the definition's. Nothing here is fast, and no engine stands on it.
//! What it makes of rows by one operator serves the replay of schedules too; what it makes of two rows stands in pipe_pairs.
#![tactic(auto)]

mod bad_join;
mod bad_node;
mod bad_sort;
mod faults;
mod mismatch;
mod names;
mod node_rows;
mod node_schemas;
mod projections;
mod sorting;
mod under;

pub use faults::plan_fault;
pub use node_rows::{
    named_rows, plan_rows, push_rows, rows, scanned_rows, selected_rows, sliced_rows, stacked_rows,
};
pub use node_schemas::{plan_schemas, schema};
pub use projections::{filtered, rows_of_function};
pub use sorting::{copied_rows, kept_slice};
pub use under::is_below;
