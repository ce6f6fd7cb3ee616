//! The laws of branches.

ghost use Rattle.pipe_driver.specs.BranchLaws.{EveryNodeIsOnABranch, EveryBuildComesFirst, EveryBranchIsAChain, SomeBranchEndsAtTheRoot, SinksAreNumberedAsNamed};

/// Each node under the root of a well-formed plan is on a branch: it is its source, a scan that its source reads or
/// one of its operators, or one of its sinks is the node's.
pub fn every_node_is_on_a_branch()
    ensures { EveryNodeIsOnABranch }
{}

/// Some branch of a well-formed plan ends in the root's sink.
pub fn some_branch_ends_at_the_root()
    ensures { SomeBranchEndsAtTheRoot }
{}

/// The sinks of a plan are numbered in the order in which its branches, in turn and each from its source on, name
/// them first; a sink that is named again has the same number.
pub fn sinks_are_numbered_as_named()
    ensures { SinksAreNumberedAsNamed }
{}

/// Each branch of a well-formed plan that feeds the build sink of a join stands before the first one that probes it.
pub fn every_build_comes_first()
    ensures { EveryBuildComesFirst }
{}

/// Each branch of a well-formed plan is a chain: its first operator or sink reads its source, and each next one the node
/// before it; a join as an operator reads the side that probes, its build sink the side that is built.
pub fn every_branch_is_a_chain()
    ensures { EveryBranchIsAChain }
{}
