//! Edits of tables, and what is told of them.

use crate::side::ViewSide;
use pipe_frame::Row;

/// What is done with a row.
#[derive(Clone, Copy, Debug, PartialEq, Eq)]
pub enum EditKind {
    /// It is put into the table.
    Insert,
    /// One row like it is taken out of the table.
    Remove,
}

/// An edit of a table.
#[derive(Debug, Drop)]
pub struct RowEdit {
    pub side: ViewSide,
    pub kind: EditKind,
    pub row: Row,
}

/// What an edit did to a view.
#[derive(Clone, Copy, Debug, PartialEq, Eq)]
pub enum Outcome {
    /// How many rows it added, and how many it took away.
    Changed(usize, usize),
    /// There was no row to take out of the table.
    Absent,
}
