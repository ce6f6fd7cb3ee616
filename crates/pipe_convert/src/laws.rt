//! The laws of what branches go through.

ghost use Rattle.pipe_convert.specs.Laws.{BranchesAre, ChainsLead};

/// A leg that has the chain of where it begins goes through one node after another, each of which reads the one before,
/// and its sink is given the rows of the last one.
pub fn chains_lead()
    ensures { ChainsLead }
{}

/// Each branch of a checked plan begins at a scan, or a union of scans alone, under the root; its legs are chains, and its
/// sinks have their numbers.
pub fn branches_are()
    ensures { BranchesAre }
{}
