//! The reconciliation of two tables.

use pipe_schema::List;

/// The class of a row: it has partners on the other side, of which this is the least, or it stands on its side only.
#[derive(Clone, Copy, Debug, PartialEq, Eq)]
pub enum Partner {
    Matched(u32),
    Only,
}

/// The classes of the left rows and of the right rows, in order.
#[derive(Debug, Drop)]
pub struct Recon {
    pub left: List<Partner>,
    pub right: List<Partner>,
}
