//! Plans: nodes over frames, what they mean, and when they are well-formed.
#![tactic(auto)]

mod arena;
mod config;
mod error;
mod ir;
mod swap;
mod try_clone;

pub use arena::Arena;
pub use config::PipeConfig;
pub use error::PipeError;
pub use ir::{IR, JoinOptions, PlanSlice, RowsHint, SortOptions};
pub use swap::swap_join_order;
