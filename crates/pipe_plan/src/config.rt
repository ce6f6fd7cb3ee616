//! The numbers of a run.

/// How a plan is run. No number changes the rows.
#[derive(Clone, Copy, Debug, PartialEq, Eq)]
pub struct PipeConfig {
    /// 1 to 256.
    pub workers: u32,
    /// Rows of a chunk, at least 1.
    pub chunk_rows: u32,
    /// Rows that a node may have: 1 to 4,294,967,294.
    pub row_limit: u32,
}
