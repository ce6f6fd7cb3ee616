//! What makes lines of rows.

ghost use Rattle.std.specs.Prelude.{◌≡◌, ◌<◌, ℕ, List, length, IfOk};
ghost use Rattle.pipe_frame.specs.Frame.{Table};

use pipe_frame::DataFrame;
use pipe_schema::Bytes;
use std::alloc::{AllocError, Global};
use std::marker::Sync;

/// Renders the rows of frames. Several threads may call it at once.
pub trait Render: Sync {
    /// The line of a row.
    ghost line_of: { Self → Table → ℕ → List ℕ };

    /// The line of the row at a place.
    fn line(&self, alloc: Global, frame: &DataFrame, i: usize) -> Result<Bytes, AllocError>
        requires { i < length frame.now.rows }
        ensures { IfOk result (λ line. line ≡ line_of self.now frame.now i) };
}

/// The same without a bound on threads, for the functions that stay on one.
pub(crate) trait Lines {
    /// The line of a row.
    ghost line_at: { Self → Table → ℕ → List ℕ };

    /// The line of the row at a place.
    fn line_at(&self, alloc: Global, frame: &DataFrame, i: usize) -> Result<Bytes, AllocError>
        requires { i < length frame.now.rows }
        ensures { IfOk result (λ line. line ≡ line_at self.now frame.now i) };
}

impl<R: Render> Lines for R {
    ghost line_at = { λ r. R.line_of r };

    fn line_at(&self, alloc: Global, frame: &DataFrame, i: usize) -> Result<Bytes, AllocError>
        requires { i < length frame.now.rows }
        ensures { IfOk result (λ line. line ≡ R.line_of self.now frame.now i) }
    {
        self.line(alloc, frame, i)
    }
}
