//! The laws of schedules.

ghost use Rattle.pipe_events.specs.Decided.{EventsAreDecided, ListsAreDecided, CompletenessIsDecided};
ghost use Rattle.pipe_events.specs.PlanStages.{EveryScheduleOfAPlan, StagesHaveTheRows, PlansWithoutFault};
ghost use Rattle.pipe_events.specs.Schedules.{EverySchedule, ClosedSidesHaveTheirRows, ClosedProbesHaveTheirFlags, CompleteListsHaveTheirFlags, SemiJoinsKeepEachRowOnce, ListsJoin};

/// After each list of events that are allowed where they stand, the root's rows are within the plan's; after a
/// complete list they are the plan's rows.
pub fn every_schedule()
    ensures { EverySchedule }
{}

/// The bag of each closed sort or build side has the rows of the node below it.
pub fn closed_sides_have_their_rows()
    ensures { ClosedSidesHaveTheirRows }
{}

/// At each closed probe side the flags are the keys that the rows of that side match.
pub fn closed_probes_have_their_flags()
    ensures { ClosedProbesHaveTheirFlags }
{}

/// After a complete list each marking join's flags are the keys that the rows of its probe side match.
pub fn complete_lists_have_their_flags()
    ensures { CompleteListsHaveTheirFlags }
{}

/// What the first marks of a semi join gave over a complete list are the rows that it keeps, each once, with no flush.
pub fn semi_joins_keep_each_row_once()
    ensures { SemiJoinsKeepEachRowOnce }
{}

/// Lists of events that are allowed one after the other are allowed as one list, and the other way round.
pub fn lists_join()
    ensures { ListsJoin }
{}

/// The same of a plan: after each list of allowed events the root's rows are within the plan's, and after a complete
/// list they are the plan's rows, for each number of workers and each way to part the keys.
pub fn every_schedule_of_a_plan()
    ensures { EveryScheduleOfAPlan }
{}

/// The rows of the stages of a plan are the rows of its nodes.
pub fn stages_have_the_rows()
    ensures { StagesHaveTheRows }
{}

/// What an event asks is decided by its test, exactly.
pub fn events_are_decided()
    ensures { EventsAreDecided }
{}

/// So is a list of events, each where it stands.
pub fn lists_are_decided()
    ensures { ListsAreDecided }
{}

/// And what the world asks at the end of a complete list.
pub fn completeness_is_decided()
    ensures { CompletenessIsDecided }
{}

/// A plan without a fault has its root, and its nodes read smaller numbers alone.
pub fn plans_without_fault()
    ensures { PlansWithoutFault }
{}
