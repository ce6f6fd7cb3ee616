//! The sinks of pipelines.

ghost use Rattle.std.specs.Prelude.{◌≡◌, ◌<◌, IfOk};

use pipe_index::HashesKeys;
use pipe_rows::KeyHasher;
use pipe_slots::PhysSink;
use std::alloc::AllocError;

/// A sink of a pipeline, with its number, how many of the pipeline's operators stand before it, and for how many workers
/// it is made (polars-pipe's `ThreadedSink`). It is split for each worker where its leg opens, and not before: a plan
/// may have thousands of pipelines, of which one leg is open at a time.
#[derive(Drop)]
pub struct ThreadedSink<H: HashesKeys> {
    pub sink: PhysSink<H>,
    pub count: u32,
    pub operator_end: u32,
    pub workers: u32,
}

impl<H: KeyHasher> ThreadedSink<H> {
    /// A sink of that number, behind so many operators, for so many workers. A number of 32 ones is want of memory.
    pub fn new(
        sink: PhysSink<H>,
        count: u32,
        operator_end: u32,
        workers: u32,
    ) -> Result<ThreadedSink<H>, AllocError>
        ensures sink { IfOk result (λ made. made.sink ≡ sink) }
        ensures count { IfOk result (λ made. made.count ≡ count) }
        ensures few { IfOk result (λ made. made.count < 4294967295) }
        ensures end { IfOk result (λ made. made.operator_end ≡ operator_end) }
        ensures workers { IfOk result (λ made. made.workers ≡ workers) }
    {
        if count == u32::MAX {
            drop(sink);
            return Err(AllocError);
        }
        Ok(ThreadedSink {
            sink,
            count,
            operator_end,
            workers,
        })
    }
}
