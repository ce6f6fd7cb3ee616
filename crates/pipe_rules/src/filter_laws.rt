//! The laws of filters.

ghost use Rattle.pipe_rules.specs.FilterLaws.{ConjunctsFilter, FiltersGoDown, PartsGoDown, TypesGoDown};

/// A filter keeps the rows at which each conjunct of its predicate is true.
pub fn conjuncts_filter()
    ensures { ConjunctsFilter }
{}

/// The rows of a node under a filter of one conjunct are those of the node with the conjunct where it goes: above the
/// node, onto each of its inputs, or onto one side of a join. The lists are equal, not only the bags.
pub fn filters_go_down()
    ensures { FiltersGoDown }
{}

/// The rows of a node under some conjuncts are those of the node with each conjunct where it goes.
pub fn parts_go_down()
    ensures { PartsGoDown }
{}

/// A conjunct has the same type where it goes.
pub fn types_go_down()
    ensures { TypesGoDown }
{}
