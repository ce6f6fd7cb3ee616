//! Operators, sinks and sources: what becomes of chunks.
//!
//! The one contract used above is the operator law: the pieces that an operator gives for a chunk are, together,
//! what it makes of the chunk's rows, one by one.
#![tactic(auto)]

mod chunk_size;
mod context;
mod filter;
mod frames;
mod gives_column;
mod hstack;
mod offset_laws;
mod offsets;
mod operator;
mod pass;
mod projection;
mod reproject;
mod shared;
mod simple_projection;
mod sink;
mod source;
mod stacked;

pub use chunk_size::determine_chunk_size;
pub use context::PExecutionContext;
pub use filter::FilterOperator;
pub use frames::frame_of;
pub use hstack::HstackOperator;
pub use offset_laws::{covered_rows_are_all, joined_pieces_cover, split_pieces_cover};
pub use offsets::{combine_offsets, split_offsets};
pub use operator::{Operator, OperatorResult};
pub use pass::Pass;
pub use projection::ProjectionOperator;
pub use reproject::{has_fields, reproject_chunk};
pub use simple_projection::SimpleProjectionOperator;
pub use sink::{FinalizedSink, Sink, SinkResult};
pub use source::{Morsel, Source, SourceResult};
