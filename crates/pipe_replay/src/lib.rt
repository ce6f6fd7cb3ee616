//! Whether an event is allowed where it stands, whether a list of events is complete, and the replay of such a list
//! over the data of a plan.
//!
//! The one contract used above: a replay answers the world after the events, and none exactly where one of them isn't
//! allowed where it stands; after each such list the root's rows are within the plan's, and after a complete one they
//! are the plan's rows.
#![tactic(auto)]

mod allowed;
mod applying;
mod carried;
mod chains;
mod changing;
mod closing;
mod complete;
mod emitting;
mod flushing;
mod framing;
mod key_bytes;
mod lists;
mod marking;
mod marks;
mod may_flush;
mod may_mark;
mod met_rows;
mod replaying;
mod sorting;
mod sources;
mod spent;
mod taken_positions;
mod world;

pub use allowed::is_allowed;
pub use carried::{carried_rows, carried_tables, gathered_rows};
pub use closing::side_below;
pub use complete::is_complete;
pub use met_rows::{is_marking, is_met};
pub use replaying::{Played, play, replay};
pub use world::{StepAnswer, World, step};
