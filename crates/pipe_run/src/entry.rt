//! What a lane writes down.

/// What a lane took, or that it came to the end of what it took.
#[derive(Clone, Copy, Debug, PartialEq, Eq, Drop)]
pub enum Entry {
    /// So many rows of a frame of the source, from a row on.
    Take {
        /// The number of the frame among the source's frames, in order.
        part: u32,
        /// The place of the first row in that frame.
        from: u64,
        /// How many rows.
        count: u64,
    },
    /// A partition of a flush.
    Flush {
        /// The number of the partition.
        part: u32,
    },
    /// The end of what was taken before.
    Done,
}
