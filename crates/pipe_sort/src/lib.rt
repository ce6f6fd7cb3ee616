//! The sort of a pipeline: it keeps all rows, and ends as the one sorted list of them, or a part of it.
#![tactic(auto)]

mod columns;
mod digits;
mod entries;
mod key;
mod parts;
mod prefix;
mod sink;
mod sorted;
mod taking;
mod ties;
mod words;

pub use key::{SortKey, SortSlice};
pub use sink::SortSink;
pub use sorted::sorted_frame;
