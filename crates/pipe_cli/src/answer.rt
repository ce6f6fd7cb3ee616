//! What is written in the end.

ghost use Rattle.std.specs.Prelude.{◌≡◌};

/// A text that stands in the program, or one that was made.
#[derive(Debug, Drop)]
pub(crate) enum Answer {
    Fixed(&'static str),
    Made(Vec<u8>),
}

impl Answer {
    ghost use Rattle.pipe_cli.specs.Answers.{text_of};

    /// The text.
    pub(crate) fn as_bytes(&self) -> &[u8]
        ensures { result.now ≡ text_of self.now }
    {
        match self {
            Answer::Fixed(text) => text.as_bytes(),
            Answer::Made(text) => text.as_slice(),
        }
    }
}
