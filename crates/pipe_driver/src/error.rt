//! Why a run ends without an answer.

/// Why pipelines can't be run to their end. A number is that of a node.
#[derive(Clone, Copy, Debug, PartialEq, Eq)]
pub enum RunError {
    /// The node has more rows than the limit.
    TooMany(u32),
    /// The stop check said yes.
    Stopped,
    Memory,
}
