//! The numbers of a run.

ghost use Rattle.std.specs.Prelude.{◌<◌, ◌≤◌};

/// The numbers of a run, within their limits.
#[derive(Clone, Copy, Debug, Drop)]
pub struct PExecutionContext {
    /// How many workers there are: 1 to 256.
    pub workers: u32,
    /// How many rows a chunk of a source has: at least 1.
    pub chunk_rows: u32,
    /// How many rows a node may have: 1 to 4,294,967,294.
    pub row_limit: u32,
    ghost workers_in: { (0 < workers) × (workers ≤ 256) },
    ghost rows_in: { 0 < chunk_rows },
    ghost limit_in: { (0 < row_limit) × (row_limit ≤ 4294967294) },
}
