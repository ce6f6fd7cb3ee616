//! Sources and sinks whose columns are brought into the order of a schema.

ghost use Rattle.std.specs.Prelude.{◌≡◌, ◌≤◌, length};
ghost use Rattle.pipe_ops.specs.Each.{HasFields};

use crate::sources::chunks::{chunks_text, context_of};
use crate::told::{frame_text, line, not_made};
use pipe_frame::{DataChunk, DataFrame};
use pipe_ops::{FinalizedSink, PExecutionContext, Sink, has_fields};
use pipe_schema::{Schema, TryClone};
use pipe_source::{DataFrameSource, OrderedSink, PhysSource, ReProjectSink, ReProjectSource};
use std::alloc::{AllocError, Global};
use worked_columns::{INT, TEXT, WrittenColumn, frame_of};

const PAIRS: &[WrittenColumn] = &[
    ("a", INT, &["1", "2", "3"]),
    ("b", TEXT, &["x", "-", "z"]),
    ("c", INT, &["7", "8", "9"]),
];

/// The columns that are wanted, in their order; of another type; and one that isn't there.
const LAST_FIRST: &[WrittenColumn] = &[("c", INT, &[]), ("b", TEXT, &[])];

const OTHER_TYPE: &[WrittenColumn] = &[("b", INT, &[])];

const NO_SUCH: &[WrittenColumn] = &[("a", INT, &[]), ("d", INT, &[])];

/// The chunks of a frame as a source, brought into the order of a schema.
fn of_source(
    alloc: Global,
    context: &PExecutionContext,
    frame: DataFrame,
    schema: Schema,
) -> Result<String, AllocError>
    requires { HasFields frame.schema schema }
{
    let source = PhysSource::Frame(DataFrameSource::from_df(frame));
    let made = ReProjectSource::new(alloc, schema, source)?;
    chunks_text(alloc, context, PhysSource::ReProject(made))
}

/// What an ordered sink ends as once it got a frame, in a sink that brings it into the order of a schema.
fn of_sink(
    alloc: Global,
    context: &PExecutionContext,
    frame: DataFrame,
    schema: Schema,
) -> Result<String, AllocError>
    requires fields { HasFields frame.schema schema }
    requires few { length frame.rows ≤ 100 }
{
    let inner = OrderedSink::new(alloc, frame.schema().try_clone()?);
    let mut sink = ReProjectSink::new(schema, inner);
    sink.sink(alloc, context, DataChunk::new(0, frame))?;
    let mut text = String::from_str(alloc, sink.fmt())?;
    text.push_str(", ")?;
    match sink.finalize(alloc, context)? {
        FinalizedSink::Finished(made) => text.push_str(frame_text(alloc, &made)?.as_str())?,
        FinalizedSink::Operator(()) => text.push_str("operator")?,
        FinalizedSink::Source(_) => text.push_str("source")?,
    }
    Ok(text)
}

/// The source and the sink of the pairs, in the order of the fields of some columns.
fn both(alloc: Global, wanted: &[WrittenColumn]) -> Result<String, AllocError> {
    let Some(context) = context_of(1, 2) else {
        return not_made(alloc);
    };
    let (Some(frame), Some(other)) = (frame_of(alloc, PAIRS)?, frame_of(alloc, wanted)?) else {
        return not_made(alloc);
    };
    if frame.height() > 100 || !has_fields(frame.schema(), other.schema()) {
        return String::from_str(alloc, "not all there");
    }
    let source = of_source(
        alloc,
        &context,
        frame.try_clone()?,
        other.schema().try_clone()?,
    )?;
    let sink = of_sink(alloc, &context, frame, other.schema().try_clone()?)?;
    format!(in alloc; "{source}\n{sink}")
}

pub(crate) fn tell(alloc: Global, answers: &mut String) -> Result<(), AllocError> {
    line(answers, "the last column first", both(alloc, LAST_FIRST)?)?;
    line(
        answers,
        "a column of another type",
        both(alloc, OTHER_TYPE)?,
    )?;
    line(answers, "a column that isn't there", both(alloc, NO_SUCH)?)
}
