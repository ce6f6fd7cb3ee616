//! What the sink of a join's built side ends as.

use pipe_frame::DataFrame;
use pipe_index::HashesKeys;
use pipe_table::JoinTable;

/// What a build sink ends as (polars-pipe's built operator).
#[derive(Drop)]
pub enum Built<H: HashesKeys> {
    /// The table of a join's keys.
    Keys(JoinTable<H>),
    /// The rows of a cross join's built side.
    Rows(DataFrame),
}
