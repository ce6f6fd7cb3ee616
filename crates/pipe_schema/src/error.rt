//! Why columns are no frame.

use crate::text::Text;
use std::alloc::AllocError;
use thiserror::Error;

/// Why a schema, a frame or a selection can't be made. Where several hold, the first of this list is told.
#[derive(Debug, Drop, Error)]
pub enum FrameError {
    /// There is no column.
    #[error("NoColumns")]
    NoColumns,
    /// A name stands twice: the first name that stands again further on.
    #[error("DuplicateName")]
    DuplicateName(Text),
    /// The height of the first column, and of the first column that differs.
    #[error("Height")]
    Height { first: usize, other: usize },
    /// A name that no column has.
    #[error("UnknownColumn")]
    UnknownColumn(Text),
    /// Want of memory.
    #[error("Memory")]
    Memory,
}

impl From<AllocError> for FrameError {
    ghost use Rattle.std.specs.Prelude.{◌≡◌};
    ghost use Rattle.pipe_schema.specs.declared.error.FrameError.TheVariants.{Memory};

    ghost from_gives = { λ _ e. e ≡ Memory };

    fn from(_error: AllocError) -> FrameError {
        FrameError::Memory
    }
}
