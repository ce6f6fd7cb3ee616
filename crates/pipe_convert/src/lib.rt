//! From a checked plan to the operators, sinks and sources of its pipelines (polars-pipe's `pipeline::convert`), the
//! settings of its joins, and how many legs come to each sink and each node.
//!
//! The one contract used above: what is made of a node does what the node means, row by row.
#![tactic(auto)]

mod counting;
mod filter;
mod function;
mod hstack;
mod join;
mod joins;
mod laws;
mod nodes;
mod physical;
mod projection;
mod row_by_row;
mod scan;
mod simple_projection;
mod sort;
mod source;

pub use counting::{LegCounts, branch_counts, operators_between};
pub use filter::filter_operator;
pub use function::function_operator;
pub use hstack::hstack_operator;
pub use join::join_spec;
pub use joins::join_specs;
pub use laws::{branches_are, chains_lead};
pub use nodes::{marked_nodes, node_count, numbered};
pub use projection::projection_operator;
pub use row_by_row::{Filter, Hstack, Projection, RowByRow};
pub use scan::{scan_frame, scan_source};
pub use simple_projection::simple_projection_operator;
pub use sort::sort_sink;
pub use source::{get_source, source_nodes};
