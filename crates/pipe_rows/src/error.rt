//! Why encoded rows can't be decoded.

use std::alloc::AllocError;
use thiserror::Error;

/// Why encoded rows can't be decoded.
#[derive(Debug, Drop, Error)]
pub enum RowsError {
    /// This row is the first that is no ordered encoding.
    #[error("NotARow")]
    NotARow(usize),
    /// Want of memory.
    #[error("Memory")]
    Memory,
}

impl From<AllocError> for RowsError {
    ghost use Rattle.std.specs.Prelude.{◌≡◌};
    ghost use Rattle.pipe_rows.specs.declared.error.RowsError.TheVariants.{Memory};

    ghost from_gives = { λ _ e. e ≡ Memory };

    fn from(_error: AllocError) -> RowsError {
        RowsError::Memory
    }
}
