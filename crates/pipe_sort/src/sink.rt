//! The sink of a sort.

ghost use Rattle.std.specs.Prelude.{◌≡◌, ℕ, ◌≤◌, ◌<◌, ◌^◌, List, [], length, All, IfOk};
ghost use Rattle.std.specs.List.{flat_map};
ghost use Rattle.pipe_frame.specs.Chunks.{HasSchema, chunk_rows, chunks_table};
ghost use Rattle.pipe_schema.specs.declared.field.Field.{Field};
ghost use Rattle.pipe_sort.specs.SortKeys.{AreWithin, Settings, Sorting, may_end};

use crate::key::{SortKey, SortSlice};
use crate::sorted::{sorted_frame, sorted_frame_on};
use pipe_frame::{DataChunk, DataFrame, chunks_to_df_unchecked};
use pipe_ops::{FinalizedSink, PExecutionContext, Sink, SinkResult};
use pipe_schema::{List, Schema, TryClone};
use std::alloc::{AllocError, Global};
use std::marker::Model;
use std::mem::replace;
use std::thread::Threads;

/// A sort: it keeps the chunks that it is given, and ends as a frame of their rows in order (polars-pipe's
/// `SortSink`, here without a merge of lanes: the one sort comes last).
pub struct SortSink {
    keys: List<SortKey>,
    slice: Option<SortSlice>,
    schema: Schema,
    chunks: Vec<DataChunk>,
}

impl Drop for SortSink {
    fn drop(self) {
        let SortSink {
            keys,
            slice: _,
            schema,
            chunks,
        } = self;
        drop(keys);
        drop(schema);
        drop(chunks);
    }
}

impl Model for SortSink {
    ghost use Rattle.std.specs.Prelude.{◌≤◌, length, All};
    ghost use Rattle.std.specs.List.{flat_map};
    ghost use Rattle.pipe_frame.specs.Chunks.{HasSchema, chunk_rows};
    ghost use Rattle.pipe_sort.specs.SortKeys.{AreWithin, Settings, Sorting};

    ghost Value = { Sorting };

    ghost view = { λ s. record { settings = record { keys = s.keys; slice = s.slice; schema = s.schema }; rows = flat_map chunk_rows s.chunks.items } };

    ghost invariant = { λ s. AreWithin (length s.schema) s.keys × All (HasSchema s.schema) s.chunks.items × (length (flat_map chunk_rows s.chunks.items) ≤ 4294967294) };
}

impl SortSink {
    /// A sort that holds no row, by these keys, that keeps the rows of a slice where there is one. It takes no memory.
    pub fn new(
        alloc: Global,
        keys: List<SortKey>,
        slice: Option<SortSlice>,
        schema: Schema,
    ) -> SortSink
        requires { AreWithin (length schema) keys }
        ensures settings { result.settings ≡
            record { keys = keys; slice = slice; schema = schema } }
        ensures empty { result.rows ≡ [] }
    {
        SortSink {
            keys,
            slice,
            schema,
            chunks: Vec::new(alloc),
        }
    }
}

impl SortSink {
    /// The frame that `finalize` ends as, sorted by as many threads as there are workers.
    pub fn sorted_on<R: Threads + Sync>(
        self,
        rt: &R,
        alloc: Global,
        workers: u32,
    ) -> Result<DataFrame, AllocError>
        ensures schema { IfOk result (λ made. made.schema ≡ self.settings.schema) }
        ensures rows { IfOk result (λ made. may_end self.settings self.rows made.rows) }
    {
        let SortSink {
            keys,
            slice,
            schema,
            chunks,
        } = self;
        let frame = gathered(alloc, chunks, &schema)?;
        sorted_frame_on(rt, alloc, workers as usize, keys.as_slice(), slice, &frame)
    }
}

/// The frame of the only chunk, which is taken out of it, or of all chunks.
fn gathered(
    alloc: Global,
    mut chunks: Vec<DataChunk>,
    schema: &Schema,
) -> Result<DataFrame, AllocError>
    requires { All (HasSchema schema.now) chunks.items }
    ensures { IfOk result (λ frame. frame ≡ chunks_table schema.now chunks.items) }
{
    if let [only] = chunks.as_mut_slice() {
        let empty = DataFrame::empty(alloc, schema)?;
        return Ok(replace(&mut only.frame, empty));
    }
    chunks_to_df_unchecked(alloc, chunks, schema)
}

impl Sink for SortSink {
    ghost use Rattle.std.specs.Prelude.{false, [], codes};
    ghost use Rattle.pipe_sort.specs.SortKeys.{may_end};
    ghost use Rattle.pipe_sort.specs.SortLaws.{any_order};

    type Built = ();

    type Src = ();

    ghost Setting = { Settings };

    ghost setting = { λ s. s.settings };

    ghost schema = { λ s. s.settings.schema };

    ghost gives = { λ s. s.settings.schema };

    ghost text = { λ s. codes "sort" };

    ghost held = { λ s. s.rows };

    ghost builds = { λ s. false };

    ghost number = { λ s. 0 };

    ghost built = { λ b. [] };

    ghost left = { λ s. [] };

    ghost supplies = { λ s fields. Unit {0} };

    ghost ends = { may_end };

    fn sink(
        &mut self,
        alloc: Global,
        context: &PExecutionContext,
        chunk: DataChunk,
    ) -> Result<SinkResult, AllocError> {
        self.chunks.push(chunk)?;
        Ok(SinkResult::CanHaveMoreInput)
    }

    fn combine(&mut self, alloc: Global, other: SortSink) -> Result<(), AllocError> {
        let SortSink {
            keys: _,
            slice: _,
            schema: _,
            mut chunks,
        } = other;
        self.chunks.append(&mut chunks)?;
        Ok(())
    }

    fn split(&self, alloc: Global, thread_no: usize) -> Result<SortSink, AllocError> {
        Ok(SortSink {
            keys: self.keys.try_clone()?,
            slice: self.slice,
            schema: self.schema.try_clone()?,
            chunks: Vec::new(alloc),
        })
    }

    fn finalize(
        self,
        alloc: Global,
        context: &PExecutionContext,
    ) -> Result<FinalizedSink<(), ()>, AllocError> {
        let SortSink {
            keys,
            slice,
            schema,
            chunks,
        } = self;
        let frame = gathered(alloc, chunks, &schema)?;
        let made = sorted_frame(alloc, keys.as_slice(), slice, &frame)?;
        Ok(FinalizedSink::Finished(made))
    }

    fn is_join_build(&self) -> bool {
        false
    }

    /// 0, since a sort builds no side of a join.
    fn node(&self) -> u32
        ensures { result ≡ 0 }
    {
        0
    }

    fn fmt(&self) -> &str {
        "sort"
    }

    ghost respects = { any_order };
}
