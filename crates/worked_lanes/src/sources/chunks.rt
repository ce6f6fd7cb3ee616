//! All chunks of a source, batch by batch.

use crate::told::frame_text;
use pipe_ops::{Morsel, PExecutionContext, Source, SourceResult};
use pipe_source::PhysSource;
use std::alloc::{AllocError, Global};

/// The most batches that are asked for.
const BATCHES: u32 = 20;

/// The numbers of a run of some workers and rows a chunk.
pub(crate) fn context_of(workers: u32, chunk_rows: u32) -> Option<PExecutionContext> {
    if workers == 0 || workers > 256 || chunk_rows == 0 {
        return None;
    }
    Some(PExecutionContext {
        workers,
        chunk_rows,
        row_limit: 1000,
    })
}

/// A chunk: its index, its frame's number, its first row's place, and its rows.
fn push_chunk(alloc: Global, text: &mut String, morsel: &Morsel) -> Result<(), AllocError> {
    let index = morsel.chunk.chunk_index;
    let part = morsel.part;
    let from = morsel.from;
    let rows = frame_text(alloc, &morsel.chunk.frame)?;
    let told = format!(in alloc; "\n  {index} of frame {part} from {from}: {rows}")?;
    text.push_str(told.as_str())
}

/// A batch of chunks.
fn push_batch(alloc: Global, text: &mut String, batch: &[Morsel]) -> Result<(), AllocError> {
    text.push_str("\n batch")?;
    for morsel in batch {
        push_chunk(alloc, text, morsel)?;
    }
    Ok(())
}

/// The text of a source, and all its chunks.
pub(crate) fn chunks_text(
    alloc: Global,
    context: &PExecutionContext,
    mut source: PhysSource,
) -> Result<String, AllocError> {
    let mut text = String::from_str(alloc, source.fmt())?;
    let mut index = 0u64;
    for _ in 0..BATCHES {
        if index > 1_000_000 {
            return Ok(text);
        }
        match source.get_batches(alloc, context, &mut index)? {
            SourceResult::Finished => {
                text.push_str("\n finished")?;
                return Ok(text);
            }
            SourceResult::GotMoreData(batch) => push_batch(alloc, &mut text, batch.as_slice())?,
        }
    }
    Ok(text)
}
