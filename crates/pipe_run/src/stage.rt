//! What a lane has of a pipeline: operators and a sink, each behind the node whose rows it is given.

ghost use Rattle.std.specs.Prelude.{◌≡◌, ◌+◌, ◌≤◌, ◌<◌, true, false};

use pipe_ops::PExecutionContext;

/// An operator, and the node whose rows it is given.
#[derive(Drop)]
pub struct Stage<O> {
    /// The operator.
    pub operator: O,
    /// The node of the plan whose rows it is given.
    pub node: u32,
    /// How many rows it was given.
    pub given: u64,
}

/// A sink, and the node whose rows it is given.
#[derive(Drop)]
pub struct SinkStage<K> {
    /// The sink.
    pub sink: K,
    /// The node of the plan whose rows it is given.
    pub node: u32,
    /// How many rows it was given.
    pub given: u64,
}

/// Why a lane stopped.
#[derive(Clone, Copy, Debug, PartialEq, Eq, Drop)]
pub enum LaneFault {
    /// The node has more rows than the limit.
    TooMany(u32),
    /// Memory ran out.
    Memory,
}

/// Counts rows, and tells whether they are within the limit.
pub(crate) fn count(context: &PExecutionContext, given: &mut u64, rows: usize) -> bool
    requires { given.old ≤ context.now.row_limit }
    ensures within { result ≡ true → given.new ≤ context.now.row_limit }
    ensures given { result ≡ true → given.new ≡ given.old + rows }
    ensures over { result ≡ false → context.now.row_limit < given.old + rows }
{
    let room = context.row_limit as u64 - *given;
    if rows as u64 > room {
        return false;
    }
    *given += rows as u64;
    true
}
