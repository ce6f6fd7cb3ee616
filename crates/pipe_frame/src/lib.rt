//! Frames: typed columns of one height, seen as a schema and a list of rows.
//!
//! The one contract used above is the frame law: a frame is a schema and a list of rows, and each of its
//! calls is the plain list operation on them.
#![tactic(auto)]

mod chunk;
mod column_queue;
mod columns;
mod data_frame;
mod stacker;
mod stacking;

pub use chunk::DataChunk;
pub use data_frame::{DataFrame, Row};
pub use stacker::{Stacked, StreamingVstacker};
pub use stacking::{chunks_to_df_on, chunks_to_df_unchecked};
