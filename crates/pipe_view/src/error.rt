//! Why a view isn't changed.

use std::alloc::AllocError;
use thiserror::Error;

/// Why an edit is refused. The view is then as it was.
#[derive(Debug, Drop, Error)]
pub enum ViewError {
    /// The table has no such row.
    #[error("Absent")]
    Absent,
    /// A table or the view would have more rows than the limit.
    #[error("TooMany")]
    TooMany,
    #[error("Memory")]
    Memory,
}

impl From<AllocError> for ViewError {
    ghost use Rattle.std.specs.Prelude.{◌≡◌};
    ghost use Rattle.pipe_view.specs.declared.error.ViewError.TheVariants.{Memory};

    ghost from_gives = { λ _ e. e ≡ Memory };

    fn from(_error: AllocError) -> ViewError {
        ViewError::Memory
    }
}
