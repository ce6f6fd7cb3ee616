//! What a view stands for.

ghost use Rattle.pipe_view.specs.Kept.{IsNode2};

/// A view stands for the plan of two scans, 0 and 1, and their join, 2: its fields are those of node 2, and its rows are
/// the rows of node 2 over the tables as they are.
pub fn view_is_node_2()
    ensures { IsNode2 }
{}
