//! For each value of a column whether it is there, as a column lends it.

ghost use Rattle.std.specs.Prelude.{◌≡◌, ◌<◌, false, length, slice_index_or};
ghost use Rattle.pipe_column.specs.Validity.{validities};

/// For each value of a column whether it is there.
#[derive(Clone, Copy)]
pub enum Validities<'a> {
    /// All of so many values are there.
    All(usize),
    /// A value is there where its mark is true.
    Each(&'a [bool]),
}

#[tactic(auto, using(crate::proofs::AllThere::there_rules))]
impl<'a> Validities<'a> {
    /// Whether the value at a place is there.
    pub fn at(&self, i: usize) -> bool
        requires { i < length (validities self.now) }
        ensures { result ≡ slice_index_or (validities self.now) i false }
    {
        match self {
            Validities::All(_) => true,
            Validities::Each(marks) => marks[i],
        }
    }
}
