//! What happens in a run, one event at a time, whoever does it.

use pipe_frame::Row;

/// The side of a sort, and the two of a join.
#[derive(Clone, Copy, Debug, PartialEq, Eq)]
pub enum Side {
    /// The input of a sort.
    Sort,
    /// The side of a join that is built.
    Build,
    /// The side of a join that is probed.
    Probe,
}

/// An event. Workers, nodes and partitions are numbered from 0.
#[derive(Debug, Drop)]
pub enum Event {
    /// A worker takes so many rows of a source, from a position on.
    Take {
        worker: u32,
        source: u32,
        from: u32,
        count: u32,
    },
    /// A worker marks a key at a join, which what it has on its way matches.
    Mark {
        worker: u32,
        join: u32,
        key: Row,
    },
    /// A worker hands on what it has on its way.
    Emit {
        worker: u32,
    },
    /// A worker marks all keys that what it has on its way matches, and hands it on.
    Done {
        worker: u32,
    },
    /// A side is closed: no row comes to it any more.
    Close {
        node: u32,
        side: Side,
    },
    /// A worker takes the built rows of a partition of a join that no mark met.
    Flush {
        worker: u32,
        join: u32,
        part: u32,
    },
}
