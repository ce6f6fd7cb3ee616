//! How many branches still feed each sink.

ghost use Rattle.std.specs.Prelude.{◌≡◌, ℕ, ◌+◌, ◌<◌, length, if◌then◌else◌, ◌==◌, IfOk, All};
ghost use Rattle.pipe_driver.specs.Tables.{number_at};

use std::alloc::{AllocError, Global};

/// Per sink number, how many branches still feed that sink (there an atomic count of each sink).
#[derive(Drop)]
pub struct SinkCounts {
    pub left: Vec<u32>,
}

impl SinkCounts {
    /// No branch feeds any of so many sinks.
    pub fn new(alloc: Global, sinks: u32) -> Result<SinkCounts, AllocError>
        ensures length { IfOk result (λ c. length c.left.items ≡ sinks) }
        ensures none { IfOk result (λ c. (k : ℕ) → number_at c.left.items k ≡ 0) }
    {
        let mut left = Vec::with_capacity(alloc, sinks as usize)?;
        for _ in 0..sinks {
            left.push(0)?;
        }
        Ok(SinkCounts { left })
    }

    /// One branch more feeds a sink.
    pub fn add(&mut self, sink: u32)
        requires there { sink < length self.old.left.items }
        requires few { number_at self.old.left.items sink < 4294967295 }
        ensures length { length self.new.left.items ≡ length self.old.left.items }
        ensures all { (k : ℕ) → number_at self.new.left.items k
            ≡ (if k == sink then number_at self.old.left.items sink + 1
            else number_at self.old.left.items k) }
    {
        let left = self.left[sink as usize] + 1;
        self.left[sink as usize] = left;
    }

    /// How many branches still feed a sink.
    pub fn left_at(&self, sink: u32) -> u32
        ensures { result ≡ number_at self.now.left.items sink }
    {
        match self.left.get(sink as usize) {
            Some(left) => *left,
            None => 0,
        }
    }

    /// One branch has fed a sink: how many still feed it.
    pub fn lower(&mut self, sink: u32) -> u32
        requires some { 0 < number_at self.old.left.items sink }
        ensures length { length self.new.left.items ≡ length self.old.left.items }
        ensures here { number_at self.old.left.items sink ≡ result + 1 }
        ensures all { (k : ℕ) → number_at self.new.left.items k
            ≡ (if k == sink then result else number_at self.old.left.items k) }
    {
        let left = self.left[sink as usize] - 1;
        self.left[sink as usize] = left;
        left
    }
}
