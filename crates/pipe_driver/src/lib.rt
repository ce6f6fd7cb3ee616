//! The branches of a plan: how it is cut into pipelines, the texts of these, and what holds while they run leg by leg:
//! what is known between two steps, the laws of the steps, of rows along a leg and of the journal, and the tables of
//! counts and of pipelines that wait.
//!
//! The one contract used above: beside the state of a run between two steps the journal tells which sources were taken,
//! which partitions flushed and which sides closed, just as the counts of the legs that are left say; what each step
//! writes is allowed where it stands, and a run to its end leaves a complete list.
#![tactic(auto)]

mod above;
mod branch;
mod branch_laws;
mod chain_laws;
mod checked;
mod climbing;
mod closing;
mod cutting;
mod error;
mod journal_laws;
mod leg_laws;
mod naming;
mod parking;
mod pipe_line;
mod plans;
mod run;
mod side_laws;
mod sink_counts;
mod step_laws;
mod texts;
mod turn;
mod words;

pub use branch::{Branch, SinkAt, SinkNode};
pub use branch_laws::{
    every_branch_is_a_chain, every_build_comes_first, every_node_is_on_a_branch,
    sinks_are_numbered_as_named, some_branch_ends_at_the_root,
};
pub use chain_laws::{joins_heed_no_order, rows_come_along_chains};
pub use checked::{cut, explain};
pub use closing::{are_closed, newer};
pub use error::RunError;
pub use journal_laws::{
    branches_are_noted, closes_are_noted, ends_are_noted, feeds_are_noted, journals_end,
    journals_start, leaves_are_noted, legs_are_noted, legs_take_their_sources,
    open_sinks_are_noted, plans_have_boards, supplies_are_rows, ways_are_noted, worlds_agree,
};
pub use leg_laws::{
    branches_can_run, built_sides_come_first, every_join_is_run, legs_are_chains,
    legs_begin_at_sources, legs_begin_once, meanings_are_sound, nodes_have_their_rows,
    sinks_are_told_apart, sinks_have_numbers, sinks_have_their_rows,
};
pub use parking::{node_at, park, unpark};
pub use pipe_line::{Leg, PipeLine};
pub use run::{Fed, Next, Passing, Run};
pub use side_laws::sides_stand_together;
pub use sink_counts::SinkCounts;
pub use step_laws::{
    branches_begin, branches_start, joins_are_built, joins_are_closed, joins_give_own,
    legs_are_counted, legs_go_through_run_nodes, legs_pass, none_is_open, plans_start,
    probe_sides_are_seen, rows_are_there, rows_stay_within, run_nodes_tell_all, sinks_are_closed,
    sinks_are_fed, sinks_stay_open, ways_go_on,
};
