//! What a stream ends with.

use pipe_schema::List;
use std::alloc::AllocError;
use thiserror::Error;

/// In which order the blocks were put.
#[derive(Debug, Drop)]
pub struct Report {
    pub order: List<u32>,
}

/// Why a frame wasn't put whole.
#[derive(Clone, Copy, Debug, Drop, Error)]
pub enum StreamError {
    /// A text wasn't put whole.
    #[error("PutFault")]
    PutFault,
    /// Want of memory.
    #[error("Memory")]
    Memory,
}

impl From<AllocError> for StreamError {
    ghost use Rattle.std.specs.Prelude.{◌≡◌};
    ghost use Rattle.pipe_stream.specs.declared.outcome.StreamError.TheVariants.{Memory};

    ghost from_gives = { λ _ e. e ≡ Memory };

    fn from(_error: AllocError) -> StreamError {
        StreamError::Memory
    }
}
