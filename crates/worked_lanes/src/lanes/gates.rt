//! A gate that holds one worker, and counts how often each came.

use pipe_schema::Gate;
use std::hint::spin_loop;
use std::sync::atomic::{AtomicU64, Ordering};

/// How often a worker that is held looks, before it goes on all the same.
const TURNS: u32 = 100_000_000;

/// How often the others come before worker 0 goes on.
const OTHERS: u64 = 7;

/// Holds the first entry of worker 0 until another worker came seven times.
#[derive(Drop)]
pub(crate) struct HoldGate {
    first: AtomicU64,
    others: AtomicU64,
}

impl HoldGate {
    pub(crate) fn new() -> HoldGate {
        HoldGate {
            first: AtomicU64::new(0),
            others: AtomicU64::new(0),
        }
    }

    /// How often worker 0 came.
    pub(crate) fn first(&self) -> u64 {
        self.first.load(Ordering::SeqCst)
    }

    /// How often the other workers came.
    pub(crate) fn others(&self) -> u64 {
        self.others.load(Ordering::SeqCst)
    }
}

impl Gate for HoldGate {
    fn enter(&self, worker: u32) {
        if worker != 0 {
            self.others.fetch_add(1, Ordering::SeqCst);
            return;
        }
        if self.first.fetch_add(1, Ordering::SeqCst) > 0 {
            return;
        }
        for _ in 0..TURNS {
            if self.others() >= OTHERS {
                return;
            }
            spin_loop();
        }
    }
}
