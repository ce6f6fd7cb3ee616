//! What a sort is told: its keys, and the part of the sorted list that it keeps.

use pipe_rows::SortField;
use pipe_schema::TryClone;
use std::alloc::AllocError;

/// A key: a column by its place, and how its cells are ordered.
#[derive(Clone, Copy, PartialEq, Eq, Debug, Drop)]
pub struct SortKey {
    pub column: u32,
    pub field: SortField,
}

impl TryClone for SortKey {
    fn try_clone(&self) -> Result<SortKey, AllocError> {
        Ok(*self)
    }
}

/// The part of a sorted list: `offset` rows are skipped, and at most `len` of the others are taken.
#[derive(Clone, Copy, PartialEq, Eq, Debug)]
pub struct SortSlice {
    pub offset: u64,
    pub len: u64,
}
