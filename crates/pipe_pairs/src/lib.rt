//! Two rows and their join, computed straight from the definitions: the value of an expression at a row, keys, which rows
//! match, pairs and paddings, the columns and the rows of a join.
//!
//! The one contract used above: each answer is the definition's. The plain program, the replay of schedules and kept joins
//! stand on it.
#![tactic(auto)]

mod comparison;
mod join_columns;
mod joins;
mod sides;
mod values;

pub use comparison::value_order;
pub use join_columns::{copied_fields, is_coalesced, joined_fields};
pub use joins::{joined_rows, left_padded, paired, right_padded};
pub use sides::{Sides, is_match, is_same_row, key};
pub use values::{cell_named, is_named, place, value_at};
