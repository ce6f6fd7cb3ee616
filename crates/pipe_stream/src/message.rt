//! What goes from a worker to the caller.

use pipe_schema::Bytes;

/// A message of one of the two workers.
#[derive(Drop)]
pub struct Message {
    /// Whether it is of the worker of the odd blocks.
    pub odd: bool,
    /// What it says.
    pub news: News,
}

/// What a worker says.
#[derive(Drop)]
pub enum News {
    /// The text of the block of this number.
    Block(u32, Bytes),
    /// The worker has ended, and has rendered all of its blocks, or not.
    Last(bool),
}
