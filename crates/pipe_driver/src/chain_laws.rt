//! The laws of rows that go along chains of operators, and of joins over rows in another order.

ghost use Rattle.pipe_driver.specs.ChainLaws.{RowsArrive, SharesHeedNoOrder, OwnRowsHeedNoOrder};

/// Rows that flowed through the operators of their node's chain came, with what was given for keys, to the places of
/// the chain: into its sink, and out of each node, as many as were counted of it; and the keys that were marked are those
/// asked for by the rows that came out of the node before.
pub fn rows_come_along_chains()
    ensures { RowsArrive }
{}

/// What a join makes of its rows doesn't depend on their order: neither what a probed row gives over the built ones, nor
/// what the built side has of its own.
pub fn joins_heed_no_order()
    ensures shares { SharesHeedNoOrder }
    ensures own { OwnRowsHeedNoOrder }
{}
