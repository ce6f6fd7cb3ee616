//! Works frames out: prints what each call on columns, frames, chunks and stackers gives.

mod chunks;
mod columns;
mod copied;
mod copies;
mod names;
mod numbers;
mod refusals;
mod rows;
mod series;
mod shared;
mod sizes;
mod stacks;
mod stops;
mod table;
mod told;
mod wide;

pub(crate) use self::table::answers;
