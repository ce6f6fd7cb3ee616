//! The laws of a run's steps.

ghost use Rattle.pipe_driver.specs.Within.{RowsStayWithin, JoinsGiveOwn, RowsAreThere, RunNodesTellAll, RunNodesAreLow};
ghost use Rattle.pipe_driver.specs.Within.{ChainsAreRun, LegsBeginAtRunNodes, ManyAreWide, WideAreUnder};
ghost use Rattle.pipe_driver.specs.Steps.{BranchesBegin, JoinsAreBuilt, LegsPass, LegsAreCounted, ProbeSidesAreSeen, JoinsAreClosed, SinksAreFed, SinksStayOpen, SinksAreClosed, WaysGoOn, NoneIsOpen, BranchesStart, PlansStart};

/// Before the first of them runs, branches that can be run are all that is left to run.
pub fn branches_start()
    ensures { BranchesStart }
{}

/// The branches of a well-formed plan can be run, in order.
pub fn plans_start()
    ensures { PlansStart }
{}

/// Between two branches the next one can begin.
pub fn branches_begin()
    ensures { BranchesBegin }
{}

/// Where a way can go on, the slot of each join that it goes through is filled, with the rows of the side that is
/// built.
pub fn joins_are_built()
    ensures { JoinsAreBuilt }
{}

/// The rows of a way's first leg go along its chain into its sink, and what is left of the way waits there.
pub fn legs_pass()
    ensures { LegsPass }
{}

/// A leg is counted at a node that other legs still go through.
pub fn legs_are_counted()
    ensures { LegsAreCounted }
{}

/// Where a leg is the last one that goes through a join, what came out of the probe side has the rows of that side.
pub fn probe_sides_are_seen()
    ensures { ProbeSidesAreSeen }
{}

/// The last leg closes a join: what that has of its own goes along its chain.
pub fn joins_are_closed()
    ensures { JoinsAreClosed }
{}

/// A leg is counted at its sink. If it was the last one that feeds it, the sink holds the rows of the node below.
pub fn sinks_are_fed()
    ensures { SinksAreFed }
{}

/// A sink that other legs still feed stays as it is.
pub fn sinks_stay_open()
    ensures { SinksStayOpen }
{}

/// A sink that no other leg feeds is closed; that of a join fills its slot.
pub fn sinks_are_closed()
    ensures { SinksAreClosed }
{}

/// Behind a sort's sink that is closed, the way that waited for it goes on.
pub fn ways_go_on()
    ensures { WaysGoOn }
{}

/// Where no branch is left, each sink is closed.
pub fn none_is_open()
    ensures { NoneIsOpen }
{}

/// What came to a place, as out of a node, is among what has to come there, as long as the joins that aren't closed gave
/// no more than they have of their own. So a node that gave more rows than a limit has more than that.
pub fn rows_stay_within()
    ensures { RowsStayWithin }
{}

/// Joins give no more than they have of their own where each does that no more rows probed than its probe side has.
pub fn joins_give_own()
    ensures { JoinsGiveOwn }
{}

/// Where no branch is left, all rows of each node that is run have come out of it.
pub fn rows_are_there()
    ensures { RowsAreThere }
{}

/// All nodes under the root are within a limit where those are that are run, which are nodes of the plan. Any other is a
/// scan that a union of scans reads.
pub fn run_nodes_tell_all()
    ensures all { RunNodesTellAll }
    ensures low { RunNodesAreLow }
{}

/// The nodes that legs begin at are run, and those behind them on their chains, sorts and joins among them.
pub fn legs_go_through_run_nodes()
    ensures chains { ChainsAreRun }
    ensures begin { LegsBeginAtRunNodes }
{}

/// A node that gave more rows than a limit while a leg ran has more than that, if no join gives more than its own; and it
/// stands under the root.
pub fn wide_nodes_are_told()
    ensures wide { ManyAreWide }
    ensures under { WideAreUnder }
{}
