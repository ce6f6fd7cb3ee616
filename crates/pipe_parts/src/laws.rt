//! The laws of plans in parts.

ghost use Rattle.pipe_parts.specs.Laws.{NodesLieAsWished, PartsHaveTheRows, GatherGivesTheList};

/// In a plan that may be run, cut by a choice that the rules allow for a node as wished, the node's rows lie in the
/// parts as wished.
pub fn nodes_lie_as_wished()
    ensures { NodesLieAsWished }
{}

/// The rows of all parts together are the rows of the plan, each as often; where its root is a sort, those below it.
pub fn parts_have_the_rows()
    ensures { PartsHaveTheRows }
{}

/// Where the root is a sort, the plan that gathers gives the plan's list over the rows of all parts.
pub fn gather_gives_the_list()
    ensures { GatherGivesTheList }
{}
