//! A leg that runs.

use pipe_chain::FlagSeat;
use pipe_index::HashesKeys;
use pipe_run::Lane;
use pipe_schema::List;
use pipe_slots::{PhysOperator, Slot};
use std::collections::VecDeque;

/// A leg that runs: its lanes, with what each stage that it hasn't left reads, and the seats there that no lane holds.
#[derive(Drop)]
pub struct Passage<H: HashesKeys, K> {
    pub lanes: Vec<Lane<PhysOperator<H>, K>>,
    pub shared: VecDeque<Slot<H>>,
    pub seats: VecDeque<List<FlagSeat>>,
}
