//! Works reading out: prints what each case shows, and what readers and writers hold, what the reader of jobs answers
//! and what lines it writes.

mod frames;
mod held;
mod lines;
mod nodes;
mod parts;
mod reading;
mod streams;
mod table;

pub(crate) use self::streams::{input, stream_answers};
pub(crate) use self::table::answers;
