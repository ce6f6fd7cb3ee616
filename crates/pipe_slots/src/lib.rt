//! What a leg of a pipeline runs through: the operators of a plan's nodes as one type, its sinks as one type, and what
//! the probes of joins read, by node.
#![tactic(auto)]

mod built;
mod call_back;
mod conversions;
mod phys_operator;
mod phys_sink;
mod place_holder;
mod probe_kind;
mod probing;
mod seat;
mod slot;
mod slots;

pub use built::Built;
pub use call_back::CallBack;
pub use phys_operator::PhysOperator;
pub use phys_sink::PhysSink;
pub use place_holder::{PlaceHolder, get_dummy_operator};
pub use probe_kind::{ProbeKind, probe_for};
pub use slot::Slot;
pub use slots::Slots;
