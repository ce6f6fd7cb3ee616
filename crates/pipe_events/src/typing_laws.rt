//! The laws of the rows of plans.

ghost use Rattle.pipe_events.specs.Fits.{RowsFitSchemas, SortsGiveOneList};

/// In a plan without a fault, over frames whose rows fit their schemas, the rows of each node fit the node's schema.
pub fn rows_fit_schemas()
    ensures { RowsFitSchemas }
{}

/// In such a plan each sort gives one list for all lists that have the rows of its input.
pub fn sorts_give_one_list()
    ensures { SortsGiveOneList }
{}
