//! Why lanes ended early.

use crate::stage::LaneFault;

/// Why lanes ended before all rows were through.
#[derive(Clone, Copy, Debug, PartialEq, Eq, Drop)]
pub enum Halt {
    /// The stop check said yes.
    Stopped,
    /// A refusal.
    Refused(LaneFault),
}
