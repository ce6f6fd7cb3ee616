//! Lanes: chunks through operators of which some mark, into any sink, on threads, batch by batch until the source is
//! out. Each lane claims the next chunk by its number, and notes it.
//!
//! The one contract used above: where the chunks of a source went through rounds of lanes until it was out, what they
//! noted are takes of the source, each position once; and where the partitions of a join did, flushes of it.
#![tactic(auto)]

mod all_flushers;
mod all_lanes;
mod batches;
mod claiming;
mod draining;
mod entry;
mod flushing;
mod gathering;
mod halt;
mod lane;
mod note;
mod note_laws;
mod note_lists;
mod noting;
mod opening;
mod pushing;
mod seating;
mod stage;
mod telling;
mod writing;

pub use all_flushers::flush_round;
pub use all_lanes::round;
pub use batches::run_rounds;
pub use draining::drain;
pub use entry::Entry;
pub use flushing::{drain_part, take_first};
pub use gathering::gather;
pub use halt::Halt;
pub use lane::Lane;
pub use note::Note;
pub use note_laws::{
    flushes_take_nothing, joins_are_flushed, notes_begin, notes_go_on, sources_are_taken,
    takes_are_few,
};
pub use note_lists::drain_notes;
pub use noting::{noted_flush, noted_round};
pub use opening::{open_lane, open_lanes};
pub use pushing::{push, push_shared};
pub use stage::{LaneFault, SinkStage, Stage};
pub use telling::rows_given;
pub use writing::{write_flushes, write_takes};
