//! An ordered sink whose chunks came over two lanes, not in order.

ghost use Rattle.std.specs.Prelude.{◌≡◌, ◌≤◌, ◌+◌, [], length, IfOk};
ghost use Rattle.pipe_source.specs.Ordered.{held_in};

use crate::sources::chunks::context_of;
use crate::told::{frame_text, line, not_made};
use pipe_frame::{DataChunk, DataFrame};
use pipe_ops::{FinalizedSink, PExecutionContext, Sink};
use pipe_schema::TryClone;
use pipe_source::OrderedSink;
use std::alloc::{AllocError, Global};
use worked_columns::{INT, WrittenColumn, frame_of};

const SIX: &[WrittenColumn] = &[("k", INT, &["1", "2", "2", "3", "5", "6"])];

/// The chunk of two rows of a frame.
fn pair(frame: &DataFrame, from: usize, index: u64) -> Result<DataChunk, AllocError>
    requires { from + 2 ≤ length frame.now.rows }
    ensures schema { IfOk result (λ chunk. chunk.frame.schema ≡ frame.now.schema) }
    ensures rows { IfOk result (λ chunk. length chunk.frame.rows ≡ 2) }
{
    Ok(DataChunk::new(index, frame.slice(from, 2)?))
}

/// A lane's sink with one chunk more.
fn added(
    alloc: Global,
    context: &PExecutionContext,
    mut sink: OrderedSink,
    chunk: DataChunk,
) -> Result<OrderedSink, AllocError>
    requires schema { chunk.frame.schema ≡ sink.schema }
    requires few { length (held_in sink) + length chunk.frame.rows ≤ 100 }
    ensures schema { IfOk result (λ made. made.schema ≡ sink.schema) }
    ensures rows { IfOk result
        (λ made. length (held_in made) ≡ length (held_in sink) + length chunk.frame.rows) }
{
    sink.sink(alloc, context, chunk)?;
    Ok(sink)
}

/// What the sink ends as whose first lane got the last and the first chunk, and whose second lane the other.
fn over_two(
    alloc: Global,
    context: &PExecutionContext,
    frame: &DataFrame,
) -> Result<String, AllocError>
    requires { length frame.now.rows ≡ 6 }
{
    let sink = OrderedSink::new(alloc, frame.schema().try_clone()?);
    let lane = sink.split(alloc, 1)?;
    let sink = added(alloc, context, sink, pair(frame, 4, 2)?)?;
    let mut sink = added(alloc, context, sink, pair(frame, 0, 0)?)?;
    let lane = added(alloc, context, lane, pair(frame, 2, 1)?)?;
    sink.combine(alloc, lane)?;
    match sink.finalize(alloc, context)? {
        FinalizedSink::Finished(made) => frame_text(alloc, &made),
        FinalizedSink::Operator(()) => String::from_str(alloc, "operator"),
        FinalizedSink::Source(_) => String::from_str(alloc, "source"),
    }
}

/// Three chunks of two rows.
fn three_chunks(alloc: Global) -> Result<String, AllocError> {
    let Some(context) = context_of(2, 2) else {
        return not_made(alloc);
    };
    match frame_of(alloc, SIX)? {
        Some(frame) if frame.height() == 6 => over_two(alloc, &context, &frame),
        _ => not_made(alloc),
    }
}

pub(crate) fn tell(alloc: Global, answers: &mut String) -> Result<(), AllocError> {
    line(
        answers,
        "chunks 2, 0 and 1 over two lanes",
        three_chunks(alloc)?,
    )
}
