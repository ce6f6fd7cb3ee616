//! Why a text isn't read.

use std::alloc::{AllocError, AllocFailed};

/// Why bytes give no value.
#[derive(Clone, Copy, Debug, Drop, PartialEq, Eq)]
pub enum ReadError {
    /// They are no JSON text, or nest too deep.
    BadText,
    /// Want of memory.
    Memory,
}

impl From<json::Invalid> for ReadError {
    ghost use Rattle.pipe_value.specs.declared.error.ReadError.TheVariants.{BadText};
    ghost use Rattle.std.specs.Prelude.{◌≡◌};

    ghost from_gives = { λ _ e. e ≡ BadText };

    fn from(_invalid: json::Invalid) -> ReadError {
        ReadError::BadText
    }
}

impl From<AllocError> for ReadError {
    ghost use Rattle.pipe_value.specs.declared.error.ReadError.TheVariants.{Memory};
    ghost use Rattle.std.specs.Prelude.{◌≡◌};

    ghost from_gives = { λ _ e. e ≡ Memory };

    fn from(_refused: AllocError) -> ReadError {
        ReadError::Memory
    }
}

impl<T: Drop> From<AllocFailed<T>> for ReadError {
    ghost use Rattle.pipe_value.specs.declared.error.ReadError.TheVariants.{Memory};
    ghost use Rattle.std.specs.Prelude.{◌≡◌};

    ghost from_gives = { λ _ e. e ≡ Memory };

    fn from(_refused: AllocFailed<T>) -> ReadError {
        ReadError::Memory
    }
}
