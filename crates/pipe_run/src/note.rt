//! What lanes noted.

use crate::entry::Entry;

/// An entry of a lane, with the lane's place among the lanes.
#[derive(Clone, Copy, Debug, PartialEq, Eq, Drop)]
pub struct Note {
    pub worker: u32,
    pub entry: Entry,
}
