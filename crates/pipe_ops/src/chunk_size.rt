//! How many rows a chunk should have.

ghost use Rattle.std.specs.Prelude.{◌≡◌, ◌≤◌};
ghost use Rattle.pipe_ops.specs.ChunkSizes.{chunk_size};

/// How many rows a chunk of so many columns should have for so many threads (polars-pipe's
/// `pipeline::determine_chunk_size`): 50,000 cells, more of them for few threads, and 1000 rows at least.
pub fn determine_chunk_size(n_cols: u64, n_threads: u64) -> u64
    requires { 1 ≤ n_threads }
    ensures { result ≡ chunk_size n_cols n_threads }
{
    let cells = 50_000 / n_cols.max(1);
    let threads = (12 / n_threads).max(1);
    (cells * threads).max(1000)
}
