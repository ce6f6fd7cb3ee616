//! Why nothing was read.

use std::alloc::AllocError;

/// Why nothing was read.
#[derive(Debug, Drop)]
pub enum Misread {
    /// The value spells nothing of the kind.
    Other,
    /// Want of memory.
    Memory,
}

impl From<AllocError> for Misread {
    ghost use Rattle.std.specs.Prelude.{◌≡◌};
    ghost use Rattle.pipe_job.specs.declared.misread.Misread.TheVariants.{Memory};

    ghost from_gives = { λ _ m. m ≡ Memory };

    fn from(_error: AllocError) -> Misread {
        Misread::Memory
    }
}
