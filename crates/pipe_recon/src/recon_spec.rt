//! By what two tables are reconciled.

use pipe_schema::{List, Text};

/// The columns whose cells are the key of a row, by their names, and whether null is the same as null.
#[derive(Debug, Drop)]
pub struct ReconSpec {
    pub on: List<Text>,
    pub join_nulls: bool,
}
