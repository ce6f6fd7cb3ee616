//! The laws of runs that go through a plan's nodes in order.

ghost use Rattle.pipe_events.specs.Runs.{RunsAreComplete, PlansAreTrees, RunsHaveTheRows};

/// What such a run writes down is allowed, event by event, and complete.
pub fn runs_are_complete()
    ensures { RunsAreComplete }
{}

/// The stages of a plan without a fault are a tree, as this asks.
pub fn plans_are_trees()
    ensures { PlansAreTrees }
{}

/// After it the root has the plan's rows.
pub fn runs_have_the_rows()
    ensures { RunsHaveTheRows }
{}
