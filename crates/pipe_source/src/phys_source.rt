//! The sources of pipelines: frames, sources one after another, and sources whose columns are brought into an order.

ghost use Rattle.std.specs.Prelude.{◌≡◌, ℕ, ◌+◌, ◌*◌, ◌^◌, ◌<◌, ◌≤◌, List, [], ◌∷◌, length, map, IfOk};
ghost use Rattle.pipe_ops.specs.Batches.{Left, IsAnswer, index_after};
ghost use Rattle.pipe_source.specs.Supplies.{left_of, all_left, HaveFields, reprojected_all, source_text};

use crate::batches::{frames_of, reproject_batches, source_batches, union_batches};
use crate::frame_source::DataFrameSource;
use pipe_ops::{PExecutionContext, Source, SourceResult};
use pipe_schema::Schema;
use std::alloc::{AllocError, Global};
use std::marker::Model;

/// A source of a pipeline.
#[cycle(source)]
#[derive(Drop)]
pub enum PhysSource {
    /// A frame.
    Frame(DataFrameSource),
    /// Sources one after another.
    Union(UnionSource),
    /// A source whose columns are brought into the order of a schema.
    ReProject(ReProjectSource),
}

/// Sources one after another (polars-pipe's `UnionSource`).
#[cycle(source)]
#[derive(Drop)]
pub struct UnionSource {
    pub(crate) sources: Vec<PhysSource>,
    pub(crate) frames: u32,
}

/// A source whose chunks get the columns of a schema, in its order (polars-pipe's `ReProjectSource`).
#[cycle(source)]
#[derive(Drop)]
pub struct ReProjectSource {
    pub(crate) schema: Schema,
    pub(crate) source: Box<PhysSource>,
}

impl Model for UnionSource {
    ghost use Rattle.std.specs.Prelude.{◌≡◌, ℕ, ◌+◌, ◌≤◌, length};
    ghost use Rattle.pipe_source.specs.Supply.{Supply};

    ghost Value = { Supply };

    ghost use Rattle.pipe_source.specs.Supplies.{all_left, deepest};

    ghost view = { λ u. record { left = all_left u.sources.items; depth = deepest u.sources.items + 1 } };

    ghost invariant = { λ u. u.frames ≡ length (all_left u.sources.items) };

    ghost size = { λ v. v.depth };

    ghost use Rattle.pipe_source.specs.SupplyFalls.{most_le};
    ghost use Rattle.std.proofs.Common.{arith};

    ghost size_decreases = { λ a h. Prim.omega (arith, most_le a.sources.items) };
}

impl Model for ReProjectSource {
    ghost use Rattle.std.specs.Prelude.{◌≡◌, ℕ, ◌+◌, ◌≤◌, length};
    ghost use Rattle.pipe_source.specs.Supply.{Supply};

    ghost Value = { Supply };

    ghost use Rattle.pipe_source.specs.Supplies.{left_of, depth_of, HaveFields, reprojected_all};

    ghost view = { λ r. record { left = reprojected_all r.schema (left_of r.source.value); depth = depth_of r.source.value + 1 } };

    ghost invariant = { λ r. HaveFields r.schema (left_of r.source.value) };

    ghost size = { λ v. v.depth };

    ghost use Rattle.pipe_source.specs.SupplyFalls.{source_le};
    ghost use Rattle.std.proofs.Common.{arith};

    ghost size_decreases = { λ a h. Prim.omega (arith, source_le a.source.value) };
}

impl UnionSource {
    /// The rows of some sources, one source after another.
    pub fn new(sources: Vec<PhysSource>) -> UnionSource
        requires { length (all_left sources.items) < 2 ^ 32 }
        ensures { result.left ≡ all_left sources.items }
    {
        let frames = frames_of(sources.as_slice());
        UnionSource { sources, frames }
    }

    /// How many frames it has.
    pub(crate) fn frames(&self) -> u32
        ensures { result ≡ length self.now.left }
    {
        self.frames
    }
}

impl ReProjectSource {
    /// The rows of a source with the columns of a schema, each of whose fields its frames have.
    pub fn new(
        alloc: Global,
        schema: Schema,
        source: PhysSource,
    ) -> Result<ReProjectSource, AllocError>
        requires { HaveFields schema (left_of source) }
        ensures { IfOk result (λ made. made.left ≡ reprojected_all schema (left_of source)) }
    {
        Ok(ReProjectSource {
            schema,
            source: Box::new(alloc, source)?,
        })
    }
}

impl From<DataFrameSource> for PhysSource {
    fn from(source: DataFrameSource) -> PhysSource {
        PhysSource::Frame(source)
    }
}

impl From<UnionSource> for PhysSource {
    fn from(source: UnionSource) -> PhysSource {
        PhysSource::Union(source)
    }
}

impl From<ReProjectSource> for PhysSource {
    fn from(source: ReProjectSource) -> PhysSource {
        PhysSource::ReProject(source)
    }
}

impl Source for PhysSource {
    ghost use Rattle.pipe_source.specs.Supplies.{left_of, source_text};

    ghost left = { left_of };

    ghost text = { source_text };

    fn get_batches(
        &mut self,
        alloc: Global,
        context: &PExecutionContext,
        next_index: &mut u64,
    ) -> Result<SourceResult, AllocError> {
        source_batches(alloc, self, context, next_index)
    }

    fn fmt(&self) -> &str {
        match self {
            PhysSource::Frame(source) => source.fmt(),
            PhysSource::Union(_) => "union",
            PhysSource::ReProject(_) => "re-project-source",
        }
    }
}

impl Source for UnionSource {
    ghost use Rattle.std.specs.Prelude.{codes};

    ghost left = { λ s. s.left };

    ghost text = { λ s. codes "union" };

    fn get_batches(
        &mut self,
        alloc: Global,
        context: &PExecutionContext,
        next_index: &mut u64,
    ) -> Result<SourceResult, AllocError> {
        union_batches(alloc, self, context, next_index)
    }

    fn fmt(&self) -> &str {
        "union"
    }
}

impl Source for ReProjectSource {
    ghost use Rattle.std.specs.Prelude.{codes};

    ghost left = { λ s. s.left };

    ghost text = { λ s. codes "re-project-source" };

    fn get_batches(
        &mut self,
        alloc: Global,
        context: &PExecutionContext,
        next_index: &mut u64,
    ) -> Result<SourceResult, AllocError> {
        reproject_batches(alloc, self, context, next_index)
    }

    fn fmt(&self) -> &str {
        "re-project-source"
    }
}
