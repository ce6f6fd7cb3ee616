//! Copies that may fail for want of memory.

ghost use Rattle.std.specs.Prelude.{◌≡◌, IfOk};

use std::alloc::AllocError;

/// What can be copied, where there is memory for the copy.
pub trait TryClone: Drop {
    /// A copy, which equals its source.
    fn try_clone(&self) -> Result<Self, AllocError>
        ensures { IfOk result (λ copy. copy ≡ self.now) };
}

impl TryClone for bool {
    fn try_clone(&self) -> Result<bool, AllocError> {
        Ok(*self)
    }
}

impl TryClone for u32 {
    fn try_clone(&self) -> Result<u32, AllocError> {
        Ok(*self)
    }
}
