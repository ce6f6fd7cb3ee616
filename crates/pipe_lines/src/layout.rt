//! What all pipelines of a plan are made of.

ghost use Rattle.std.specs.Prelude.{◌≡◌, ◌≤◌, ◌^◌, IfOk};
ghost use Rattle.pipe_lines.specs.Layouts.{IsLayoutFor};

use crate::sinks::plan_sinks;
use pipe_check::CheckedPlan;
use pipe_convert::join_specs;
use pipe_index::HashesKeys;
use pipe_rows::{KeyHasher, partition_count};
use pipe_slots::PhysSink;
use pipe_table::JoinSpec;
use std::alloc::{AllocError, Global};
use std::sync::Arc;

/// The settings of a plan's joins by their nodes, and its sinks: by the nodes of its sorts and joins, and that of the root
/// last. Each is made once, and what pipelines have is shared with them or split from them.
#[derive(Drop)]
pub struct Layout<H: HashesKeys> {
    pub specs: Vec<Option<Arc<JoinSpec>>>,
    pub sinks: Vec<Option<PhysSink<H>>>,
    /// How many partitions each table has.
    pub parts: u32,
    pub hasher: H,
}

impl<H: KeyHasher> Layout<H> {
    /// The layout of a checked plan, for so many workers.
    pub fn new(
        alloc: Global,
        plan: &CheckedPlan,
        workers: u32,
        hasher: H,
    ) -> Result<Layout<H>, AllocError>
        requires some { 1 ≤ workers }
        requires few { workers ≤ 2 ^ 31 }
        ensures { IfOk result (IsLayoutFor plan.now workers hasher) }
    {
        let parts = partition_count(workers);
        let specs = join_specs(alloc, plan)?;
        let sinks = plan_sinks(alloc, plan, specs.as_slice(), parts, hasher)?;
        Ok(Layout {
            specs,
            sinks,
            parts,
            hasher,
        })
    }
}
