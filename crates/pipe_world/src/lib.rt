//! The stages of a plan in the code (what each node has, and what it makes of rows that pass it), and the world of a
//! run as data: what was taken, what is on its way, what is marked, flushed, closed, and the rows of each sink.
//!
//! The one contract used above: each answer is the one that the definitions of schedules give for the plan's stages,
//! and each call changes the world as they say. Rows are joined by nested loops and carried one node at a time; no
//! engine stands on it.
#![tactic(auto)]

mod blanks;
mod flows;
mod keys;
mod load;
mod operators;
mod plan;
mod plan_tables;
mod positions;
mod progress;
mod reach;
mod shares;
mod stage;

pub use flows::flows_of;
pub use keys::{is_among, is_row_among};
pub use load::Load;
pub use plan::StagedPlan;
pub use plan_tables::PlanTables;
pub use progress::Progress;
pub use reach::{is_marked, reach_marks};
pub use shares::{build_key, meets, padded_built};
pub use stage::{JoinStage, RowOp, Stage};
