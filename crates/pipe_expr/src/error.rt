//! Why an expression has no type.

use pipe_schema::Text;
use std::alloc::AllocError;
use thiserror::Error;

/// Why an expression has no type over a schema. Where several hold, the first of this list is told.
#[derive(Debug, Drop, Error)]
pub enum ExprError {
    /// The first name, read left to right, that no column has.
    #[error("UnknownColumn")]
    UnknownColumn(Text),
    /// All names are known, and an operator doesn't take its operands' types.
    #[error("TypeMismatch")]
    TypeMismatch,
    /// Want of memory.
    #[error("Memory")]
    Memory,
}

impl From<AllocError> for ExprError {
    ghost use Rattle.std.specs.Prelude.{◌≡◌};
    ghost use Rattle.pipe_expr.specs.declared.error.ExprError.TheVariants.{Memory};

    ghost from_gives = { λ _ e. e ≡ Memory };

    fn from(_error: AllocError) -> ExprError {
        ExprError::Memory
    }
}
