//! Why a plan isn't run to its end.

use pipe_schema::Text;
use std::alloc::AllocError;
use thiserror::Error;

/// Why a plan is refused. A number is that of the node at which the fault stands.
#[derive(Debug, Drop, Error)]
pub enum PipeError {
    #[error("BadConfig")]
    BadConfig,
    #[error("BadNode")]
    BadNode(u32),
    #[error("UnknownColumn")]
    UnknownColumn(u32, Text),
    #[error("DuplicateName")]
    DuplicateName(u32, Text),
    #[error("TypeMismatch")]
    TypeMismatch(u32),
    #[error("BadJoin")]
    BadJoin(u32),
    #[error("BadSort")]
    BadSort(u32),
    #[error("TooMany")]
    TooMany(u32),
    #[error("Stopped")]
    Stopped,
    #[error("Memory")]
    Memory,
}

impl From<AllocError> for PipeError {
    ghost use Rattle.std.specs.Prelude.{◌≡◌};
    ghost use Rattle.pipe_plan.specs.declared.error.PipeError.TheVariants.{Memory};

    ghost from_gives = { λ _ e. e ≡ Memory };

    fn from(_error: AllocError) -> PipeError {
        PipeError::Memory
    }
}
