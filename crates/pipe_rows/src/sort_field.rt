//! How a sort orders the cells of a key.

/// The direction of a sort key, and where its nulls stand.
#[derive(Clone, Copy, PartialEq, Eq, Debug)]
pub struct SortField {
    /// Greatest value first.
    pub descending: bool,
    /// Nulls after all values, whatever the direction.
    pub nulls_last: bool,
}
