//! Running a plan: the frame has the schema and the rows of the plan, whatever the workers and the chunk size.
#![tactic(auto)]

mod answer;
mod building;
mod check;
mod frame;
mod numbers;
mod running;
mod sides;

pub use answer::{Journal, RunAnswer};
pub use check::check_job;
pub use pipe_plan::PipeConfig;
pub use running::{run_plan, run_plan_with};
pub use sides::both_sides;
