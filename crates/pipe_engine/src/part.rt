//! What runs a leg.

use pipe_driver::SinkAt;
use pipe_index::HashesKeys;
use pipe_run::{SinkStage, Stage};
use pipe_slots::{PhysOperator, PhysSink};

/// The operators of a leg with the nodes whose rows they are given, and its sink, all of which have done nothing. Each
/// lane works on copies of them.
#[derive(Drop)]
pub struct Part<H: HashesKeys> {
    pub at: SinkAt,
    pub stages: Vec<Stage<PhysOperator<H>>>,
    pub target: SinkStage<PhysSink<H>>,
    /// The nodes whose rows its source's frames have, in order.
    pub scans: Vec<u32>,
}
