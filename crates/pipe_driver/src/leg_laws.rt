//! The laws of branches, leg by leg.

ghost use Rattle.pipe_driver.specs.LegLaws.{LegsAreChains, BuiltSidesComeFirst, LegsBeginAtSources, LegsBeginOnce, EveryJoinIsRun, SinksHaveTheirRows, NodesHaveTheirRows, BranchesCanRun, MeaningsAreSound};
ghost use Rattle.pipe_driver.specs.Numbers.{SinksAreToldApart, SinksHaveNumbers};

/// Each leg of the branches of a well-formed plan has the operators and the sink of the chain of where it begins, and
/// goes upwards. Only behind the sink of a sort there is a further leg.
pub fn legs_are_chains()
    ensures { LegsAreChains }
{}

/// A branch that goes through a join stands behind all legs that feed a sink of the side of the join that is built:
/// its build sink, and those of sorts and joins below that.
pub fn built_sides_come_first()
    ensures { BuiltSidesComeFirst }
{}

/// The legs begin at the sources under the root, each once.
pub fn legs_begin_at_sources()
    ensures { LegsBeginAtSources }
{}

/// At most one leg begins at a node.
pub fn legs_begin_once()
    ensures { LegsBeginOnce }
{}

/// Each join under the root is gone through, and its build sink is fed.
pub fn every_join_is_run()
    ensures { EveryJoinIsRun }
{}

/// What comes into a sink from all legs and from what joins have of their own, each along its chain, has the rows of
/// the node below the sink.
pub fn sinks_have_their_rows()
    ensures { SinksHaveTheirRows }
{}

/// What comes out of a node so has the rows of the node.
pub fn nodes_have_their_rows()
    ensures { NodesHaveTheirRows }
{}

/// The branches of a well-formed plan can be run, in order.
pub fn branches_can_run()
    ensures { BranchesCanRun }
{}

/// The meaning of a well-formed plan is sound: its joins stand once, chains go on, and what comes out of the probe side
/// of a join goes through the join.
pub fn meanings_are_sound()
    ensures { MeaningsAreSound }
{}

/// Two sinks of a plan don't have one number.
pub fn sinks_are_told_apart()
    ensures { SinksAreToldApart }
{}

/// Each sink of the branches of a well-formed plan has the number of that by which it goes.
pub fn sinks_have_numbers()
    ensures { SinksHaveNumbers }
{}
