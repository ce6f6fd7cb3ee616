//! Frames and columns written as texts, for programs that work cases out.
//!
//! Cells are texts, of which `-` is null; those of binary columns are hexadecimal digits. A text that spells no
//! value of its column is null.
#![tactic(auto)]

mod cells;
mod frames;

pub use cells::{cell_of, texts};
pub use frames::{INT, TEXT, WrittenColumn, frame_of, series_of};
