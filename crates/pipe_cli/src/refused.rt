//! From an error of a plan to a refusal with its line.

ghost use Rattle.std.specs.Prelude.{◌≡◌, true, false};
ghost use Rattle.pipe_cli.specs.Refused.{Tells};

use crate::fault_lines::fault_line;
use crate::status::Refusal;
use pipe_plan::PipeError;
use std::alloc::Global;

/// Whether an error says that a run was stopped.
fn is_stop(error: &PipeError) -> bool
    ensures yes { result ≡ true → error.now ≡ PipeError.Stopped }
    ensures no { result ≡ false → error.now ≡ PipeError.Stopped → ⊥ }
{
    matches!(error, PipeError::Stopped)
}

/// The refusal by an error, with its line; want of memory where there is none for the line. That a run was stopped
/// takes no memory to tell.
pub(crate) fn refused(alloc: Global, error: PipeError) -> Refusal
    ensures { Tells result error }
{
    if is_stop(&error) {
        return Refusal::Stopped;
    }
    let Ok(line) = fault_line(alloc, &error) else {
        return Refusal::Memory;
    };
    match error {
        PipeError::BadConfig
        | PipeError::BadNode(_)
        | PipeError::UnknownColumn(..)
        | PipeError::DuplicateName(..)
        | PipeError::TypeMismatch(_)
        | PipeError::BadJoin(_)
        | PipeError::BadSort(_) => Refusal::Fault(line),
        PipeError::TooMany(_) => Refusal::TooMany(line),
        PipeError::Stopped | PipeError::Memory => Refusal::Memory,
    }
}
