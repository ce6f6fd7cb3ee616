//! From the branches of a checked plan to its pipelines (the part of polars-pipe's `pipeline::convert` that makes
//! pipelines).
//!
//! The one contract used above: the pipelines are, in order, the branches of the plan, and what is made of each node does
//! what the node means.
#![tactic(auto)]

mod branch_operators;
mod branch_sinks;
mod cutting;
mod executing;
mod front;
mod laws;
mod layout;
mod lending;
mod operator;
mod pipe_line;
mod pipe_nodes;
mod pipeline;
mod run;
mod settings;
mod sink;
mod sinks;
mod text;
mod threaded_sink;

pub use executing::execute_pipeline;
pub use laws::none_run_all_left;
pub use layout::Layout;
pub use operator::get_operator;
pub use pipe_line::PipeLine;
pub use pipe_nodes::PipeNodes;
pub use pipeline::{create_pipeline, create_pipelines};
pub use run::{create_run, run_branches};
pub use sink::get_sink;
pub use sinks::plan_sinks;
pub use threaded_sink::ThreadedSink;
