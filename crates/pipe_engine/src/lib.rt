//! The engine that runs the pipelines of a plan: its sinks, the leg that runs, and the driver over them.
#![tactic(auto)]

mod assembling;
mod counting;
mod driving;
mod engine;
mod feeding;
mod finishing;
mod journal;
mod keeping;
mod leg;
mod part;
mod plan_run;
mod refused;
mod running;
mod sinks;
mod source_frame;
mod starting;
mod taking;

pub use assembling::{assemble_run, give_back};
pub use engine::{Engine, FedSink, OpenLeg, PlanLine, PlanRun, Tools};
pub use part::Part;
pub use plan_run::execute_branches;
pub use running::run_front;
