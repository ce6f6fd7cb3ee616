//! Works out the journals of runs: the pipelines of each plan and the order in which their sources are taken; what one
//! worker takes and which sides are closed, in order; and, by several workers, that each took as often as it entered the
//! gate.

mod gates;
mod pipelines;
mod plans;
mod runs;
mod table;

pub(crate) use self::table::answers;
