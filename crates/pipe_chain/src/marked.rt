//! What a mark answers.

/// Whether a mark was the first of its key.
#[derive(Clone, Copy, PartialEq, Eq, Debug)]
pub enum Marked {
    /// No seat had marked the key before.
    First,
    /// Some seat had.
    Again,
}
