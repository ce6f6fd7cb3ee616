//! Gates that count how often each of three workers came, and one that holds the first of them.

use pipe_schema::Gate;
use std::hint::spin_loop;
use std::sync::atomic::{AtomicU64, Ordering};

/// How often a worker that is held looks, before it goes on all the same.
const TURNS: u32 = 100_000_000;

/// How often worker 1 comes before worker 0 goes on, where worker 0 is held.
const OTHERS: u64 = 7;

/// Counts the entries of workers 0 to 2. It may hold the first entry of worker 0 until worker 1 came seven times.
#[derive(Drop)]
pub(crate) struct CountGate {
    holds: bool,
    first: AtomicU64,
    second: AtomicU64,
    third: AtomicU64,
}

impl CountGate {
    pub(crate) fn new(holds: bool) -> CountGate {
        CountGate {
            holds,
            first: AtomicU64::new(0),
            second: AtomicU64::new(0),
            third: AtomicU64::new(0),
        }
    }

    fn counter(&self, worker: u32) -> &AtomicU64 {
        match worker {
            0 => &self.first,
            1 => &self.second,
            _ => &self.third,
        }
    }

    /// How often a worker came.
    pub(crate) fn came(&self, worker: u32) -> u64 {
        self.counter(worker).load(Ordering::SeqCst)
    }
}

impl Gate for CountGate {
    fn enter(&self, worker: u32) {
        let before = self.counter(worker).fetch_add(1, Ordering::SeqCst);
        if worker != 0 || before > 0 || !self.holds {
            return;
        }
        for _ in 0..TURNS {
            if self.came(1) >= OTHERS {
                return;
            }
            spin_loop();
        }
    }
}
