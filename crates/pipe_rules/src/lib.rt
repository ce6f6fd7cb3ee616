//! Filters as low in a plan as they can stand: where each conjunct goes below each kind of node, the rewriting that
//! puts it there, and which columns a node needs of its inputs.
//!
//! The definitions say what becomes of a conjunct at each kind of node, and what each kind of node needs; the laws,
//! that a filter is one by its conjuncts, that these may go there, and that no other column changes what a node gives.
#![tactic(auto)]

mod batch;
mod by_node;
mod copying;
mod counting;
mod filter_laws;
mod function;
mod hstack;
mod join;
mod naming;
mod need_laws;
mod parting;
mod passage;
mod placement;
mod pushdown;
mod reach;
mod reading;
mod select;
mod sharing;
mod splitting;

pub use by_node::place_all;
pub use copying::inputs;
pub use filter_laws::{conjuncts_filter, filters_go_down, parts_go_down, types_go_down};
pub use naming::{Naming, with_names};
pub use need_laws::needs_serve;
pub use passage::{Passage, place_each};
pub use placement::Placement;
pub use pushdown::{Rewritten, push_filters};
pub use reading::{NameTest, reads_only};
pub use splitting::{conjunction, conjuncts};
