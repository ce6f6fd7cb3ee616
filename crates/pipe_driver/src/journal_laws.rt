//! The laws of the steps of a run, leg by leg, on what they write.

ghost use Rattle.pipe_driver.specs.JournalLaws.{PlansHaveBoards, LegsTakeTheirSources, SuppliesAreRows, WorldsAgree, JournalsStart, BranchesAreNoted, LegsAreNoted, LeavesAreNoted, EndsAreNoted, FeedsAreNoted, OpenSinksAreNoted, ClosesAreNoted, WaysAreNoted, JournalsEnd};

/// The stages of a well-formed plan and what it means to who runs its legs fit together.
pub fn plans_have_boards()
    ensures { PlansHaveBoards }
{}

/// A leg that begins at a scan or a sort takes the rows of that node; one that begins at a union takes those of all the
/// scans that it reads, in order.
pub fn legs_take_their_sources()
    ensures { LegsTakeTheirSources }
{}

/// A scan and a sort have as many positions as their node has rows.
pub fn supplies_are_rows()
    ensures { SuppliesAreRows }
{}

/// Before the first branch runs, nothing was written.
pub fn journals_start()
    ensures { JournalsStart }
{}

/// The next branch begins, and not at a sort.
pub fn branches_are_noted()
    ensures { BranchesAreNoted }
{}

/// The rows of a leg were taken, in any chunks and by any workers: each take is allowed, for all joins above are built
/// and the sort at which it begins is closed.
pub fn legs_are_noted()
    ensures { LegsAreNoted }
{}

/// A leg leaves a node that others still go through: nothing is written.
pub fn leaves_are_noted()
    ensures { LeavesAreNoted }
{}

/// The last leg leaves a join: its probe side may be closed, and its partitions flushed, each once, by any workers.
pub fn ends_are_noted()
    ensures { EndsAreNoted }
{}

/// A leg is counted at its sink: nothing is written.
pub fn feeds_are_noted()
    ensures { FeedsAreNoted }
{}

/// A sink that others still feed stays open: nothing is written.
pub fn open_sinks_are_noted()
    ensures { OpenSinksAreNoted }
{}

/// The sink of a sort or a build may be closed once no leg feeds it any more.
pub fn closes_are_noted()
    ensures { ClosesAreNoted }
{}

/// The way that waited behind a sort goes on.
pub fn ways_are_noted()
    ensures { WaysAreNoted }
{}

/// Beside each state of a run the world of the events agrees with the plan: what came to a closed sink are the rows of the
/// node below it, and the flags of a join that no leg goes through any more are the keys that its probe side matches.
pub fn worlds_agree()
    ensures { WorldsAgree }
{}

/// Where the root's sink is closed, all was taken, flushed and closed: the journal is a complete list, and it brought the
/// root the rows of the plan.
pub fn journals_end()
    ensures { JournalsEnd }
{}
