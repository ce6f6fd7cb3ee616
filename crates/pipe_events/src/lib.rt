//! Every schedule: whatever the order in which workers take, mark, flush and close, the plan's rows come out. And laws
//! of plans and of their runs: rounds of events, whole journals, rows that fit the schemas of their nodes.
//!
//! The one contract used above: where no position is taken twice, and no partition flushed twice, the list of a round
//! is allowed whatever worker took what, and nothing is on its way at its end; what a run that goes through a plan's
//! nodes in order writes down is a complete schedule; the rows of a plan fit its schemas, and its sorts give one list
//! for all lists of the same rows.
#![tactic(auto)]

mod event;
mod fitting;
mod laws;
mod run_laws;
mod schedule_laws;
mod typing_laws;

pub use event::{Event, Side};
pub use fitting::frames_fit;
pub use laws::{
    closed_probes_have_their_flags, closed_sides_have_their_rows, complete_lists_have_their_flags,
    completeness_is_decided, events_are_decided, every_schedule, every_schedule_of_a_plan,
    lists_are_decided, lists_join, plans_without_fault, semi_joins_keep_each_row_once,
    stages_have_the_rows,
};
pub use run_laws::{plans_are_trees, runs_are_complete, runs_have_the_rows};
pub use schedule_laws::{
    empty_journals_stand, journals_close, journals_end, journals_flush, journals_take,
    plans_have_stages, ready_sources_have_their_rows, rounds_of_flushes, rounds_of_takes,
    taken_sources_are_spent,
};
pub use typing_laws::{rows_fit_schemas, sorts_give_one_list};
