//! Frames as values.

ghost use Rattle.std.specs.Prelude.{⊤};
ghost use Rattle.pipe_job.specs.FrameSpelling.{frame_spelling};

use crate::lists::list_value;
use crate::object::single;
use crate::spell::Spell;
use pipe_frame::DataFrame;
use pipe_value::Value;
use std::alloc::{AllocError, Global};

impl Spell for DataFrame {
    ghost spelling = { frame_spelling };

    ghost fits = { λ _. ⊤ };

    fn spell(&self, alloc: Global) -> Result<Value, AllocError> {
        let columns = list_value(alloc, self.get_columns())?;
        single(alloc, "columns", columns)
    }
}
