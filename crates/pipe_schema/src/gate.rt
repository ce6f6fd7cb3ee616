//! The gate: what each worker calls before it works on a chunk or a partition that it took.

use std::hint::spin_loop;
use std::sync::atomic::{AtomicBool, AtomicU64, Ordering};

/// How often a worker looks whether another has come, before it goes on alone.
const TURNS: u32 = 100_000_000;

/// What a worker enters. It promises only to return.
pub trait Gate {
    /// Called by a worker, with its number.
    fn enter(&self, worker: u32);
}

/// A gate that is always open.
#[derive(Clone, Copy, Debug)]
pub struct OpenGate;

impl Gate for OpenGate {
    fn enter(&self, _worker: u32) {}
}

/// A gate for tests: each worker waits a while until two workers have come, to show that two were there at once.
#[derive(Drop)]
pub struct MeetGate {
    // One more than the number of the worker that came first, or 0 where none has come.
    first: AtomicU64,
    met: AtomicBool,
}

impl MeetGate {
    /// A gate that no worker has come to.
    pub fn new() -> MeetGate {
        MeetGate {
            first: AtomicU64::new(0),
            met: AtomicBool::new(false),
        }
    }

    /// Whether two workers have come.
    pub fn met(&self) -> bool {
        self.met.load(Ordering::SeqCst)
    }
}

impl Gate for MeetGate {
    fn enter(&self, worker: u32) {
        let me = worker as u64 + 1;
        if let Err(first) = self
            .first
            .compare_exchange(0, me, Ordering::SeqCst, Ordering::SeqCst)
        {
            if first != me {
                self.met.store(true, Ordering::SeqCst);
            }
        }
        for _ in 0..TURNS {
            if self.met() {
                return;
            }
            spin_loop();
        }
    }
}
