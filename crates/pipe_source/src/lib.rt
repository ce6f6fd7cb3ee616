//! Sources: where the chunks of a pipeline begin; and the sinks around them. The function operator: an unpivot, piece
//! by piece, and a renaming.
//!
//! How a chunk is cut is exact: which pieces come, in which order, and which size the next pieces have.
#![tactic(auto)]

mod batches;
mod chunk_run;
mod cutting;
mod frame_source;
mod function;
mod named;
mod ordered_sink;
mod parts;
mod phys_source;
mod renamed;
mod repeated;
mod reproject_sink;
mod reprojected;
mod row_by_row;
mod source_law;
mod unpivoted;

pub use cutting::Cutting;
pub use frame_source::DataFrameSource;
pub use function::FunctionOperator;
pub use ordered_sink::OrderedSink;
pub use phys_source::{PhysSource, ReProjectSource, UnionSource};
pub use reproject_sink::ReProjectSink;
pub use source_law::batches_are_the_rows;
