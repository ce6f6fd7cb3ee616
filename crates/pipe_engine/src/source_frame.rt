//! The frame that a source is.

ghost use Rattle.std.specs.Prelude.{◌≡◌, ◌≤◌, ◌<◌, IfOk};
ghost use Rattle.std.specs.List.{AllByRecursion};
ghost use Rattle.pipe_source.specs.Supplies.{left_of};
ghost use Rattle.pipe_engine.specs.Engine.{IsFresh};
ghost use Rattle.pipe_engine.specs.Wholes.{HasFrame, IsFrameIn, IsKeptFrame};

use pipe_driver::SinkAt;
use pipe_frame::DataFrame;
use pipe_ops::{PExecutionContext, Source, SourceResult};
use pipe_schema::TryClone;
use pipe_source::{DataFrameSource, PhysSource};
use std::alloc::{AllocError, Global};

/// The rows of a frame that is a source, if it has any. They share its memory where that is shared, since a source cuts
/// its chunks out of it, and this is one chunk of all rows. More rows than 32 bits count are want of memory.
fn all_rows(alloc: Global, source: &mut DataFrameSource) -> Result<Option<DataFrame>, AllocError>
    ensures { IfOk result (IsFrameIn source.old source.new) }
{
    let all = PExecutionContext {
        workers: 1,
        chunk_rows: u32::MAX,
        row_limit: 1,
    };
    let mut index = 0;
    let Ok(answer) = source.get_batches(alloc, &all, &mut index) else {
        return Err(AllocError);
    };
    match answer {
        SourceResult::Finished => Ok(None),
        SourceResult::GotMoreData(mut chunks) => {
            let Some(chunk) = chunks.pop() else {
                unreachable!()
            };
            if !chunks.is_empty() {
                return Err(AllocError);
            }
            let frame = chunk.chunk.frame.try_clone()?;
            Ok(Some(frame))
        }
    }
}

/// A source of which nothing was taken, with its rows as a frame where it is one that has any.
pub(crate) fn with_frame(
    alloc: Global,
    source: PhysSource,
) -> Result<(PhysSource, Option<DataFrame>), AllocError>
    requires { AllByRecursion IsFresh (left_of source) }
    ensures same { IfOk result (λ r. r.0 ≡ source) }
    ensures frame { IfOk result (λ r. HasFrame source r.1) }
{
    match source {
        PhysSource::Frame(mut source) => {
            let rows = all_rows(alloc, &mut source)?;
            let Some(frame) = rows else {
                return Ok((PhysSource::Frame(source), None));
            };
            let again = frame.try_clone()?;
            let source = DataFrameSource::from_df(again);
            Ok((PhysSource::Frame(source), Some(frame)))
        }
        PhysSource::Union(source) => Ok((PhysSource::Union(source), None)),
        PhysSource::ReProject(source) => Ok((PhysSource::ReProject(source), None)),
    }
}

/// How many lanes a leg has: as many as there are workers, but where its source is a frame no more than that has chunks
/// or its joins have partitions to flush, and at least one.
pub(crate) fn lanes_for(
    context: &PExecutionContext,
    source: &PhysSource,
    frame: &Option<DataFrame>,
    parts: u32,
) -> u32
    ensures some { 0 < result }
    ensures few { result ≤ context.now.workers }
{
    match source {
        PhysSource::Frame(_) => {
            let rows = frame_height(frame);
            let chunks = rows.saturating_sub(1) / context.chunk_rows as usize + 1;
            chunks.max(parts as usize).min(context.workers as usize) as u32
        }
        PhysSource::Union(_) | PhysSource::ReProject(_) => context.workers,
    }
}

/// How many rows a frame has, if there is one.
fn frame_height(frame: &Option<DataFrame>) -> usize {
    match frame {
        Some(frame) => frame.height(),
        None => 0,
    }
}
