//! The sink around a sink, which brings the columns that it ends with into the order of a schema.

ghost use Rattle.std.specs.Prelude.{◌≡◌, ℕ, List, IfOk};
ghost use Rattle.pipe_schema.specs.declared.field.Field.{Field};
ghost use Rattle.pipe_ops.specs.Each.{HasFields, reprojected};
ghost use Rattle.pipe_source.specs.Endings.{GivesRowsOf, SuppliesSchemas};

use crate::phys_source::{PhysSource, ReProjectSource};
use pipe_frame::{DataChunk, DataFrame};
use pipe_ops::{FinalizedSink, PExecutionContext, Sink, SinkResult, reproject_chunk};
use pipe_schema::{Schema, TryClone};
use std::alloc::{AllocError, Global};
use std::mem::replace;

/// A sink whose frame or source gets the columns of a schema, in its order (polars-pipe's `ReProjectSink`). What was
/// built it hands on as it is, and so it builds where the sink in it builds.
pub struct ReProjectSink<S: Sink<Src = PhysSource>> {
    schema: Schema,
    sink: S,
    ghost fields: { HasFields (S.gives sink) schema },
    ghost rows: { GivesRowsOf S.left },
    ghost schemas: { SuppliesSchemas S.supplies },
}

impl<S: Sink<Src = PhysSource> + Drop> Drop for ReProjectSink<S> {
    fn drop(self) {
        let ReProjectSink { schema, sink } = self;
        drop(schema);
        drop(sink);
    }
}

impl<S: Sink<Src = PhysSource>> ReProjectSink<S> {
    /// A sink around another, each of whose columns of the schema the other gives.
    pub fn new(schema: Schema, sink: S) -> ReProjectSink<S>
        requires fields { HasFields (S.gives sink) schema }
        requires rows { GivesRowsOf S.left }
        requires schemas { SuppliesSchemas S.supplies }
        ensures schema { result.schema ≡ schema }
        ensures sink { result.sink ≡ sink }
    {
        ReProjectSink { schema, sink }
    }
}

/// The columns of a schema of a frame that has them.
fn reprojected_frame(
    alloc: Global,
    frame: DataFrame,
    schema: &Schema,
) -> Result<DataFrame, AllocError>
    requires { HasFields frame.schema schema.now }
    ensures { IfOk result (λ made. made ≡ reprojected schema.now frame) }
{
    let mut chunk = DataChunk::new(0, frame);
    reproject_chunk(alloc, &mut chunk, schema)?;
    let empty = DataFrame::empty(alloc, schema)?;
    Ok(replace(&mut chunk.frame, empty))
}

impl<S: Sink<Src = PhysSource> + Drop> Sink for ReProjectSink<S> {
    ghost use Rattle.std.specs.Prelude.{codes};
    ghost use Rattle.pipe_source.specs.Endings.{Around, source_rows, supplies_schema, may_end_around};
    ghost use Rattle.pipe_source.specs.EndingLaws.{around_any_order};

    type Built = S::Built;

    type Src = PhysSource;

    ghost Setting = { Around S.Setting };

    ghost setting = { λ k. record { inner = S.setting k.sink; builds = S.builds k.sink; given = S.gives k.sink; schema = k.schema } };

    ghost schema = { λ k. S.schema k.sink };

    ghost gives = { λ k. k.schema };

    ghost text = { λ k. codes "re-project-sink" };

    ghost held = { λ k. S.held k.sink };

    ghost builds = { λ k. S.builds k.sink };

    ghost number = { λ k. S.number k.sink };

    ghost built = { S.built };

    ghost left = { source_rows };

    ghost supplies = { supplies_schema };

    ghost ends = { may_end_around S.ends };

    fn sink(
        &mut self,
        alloc: Global,
        context: &PExecutionContext,
        chunk: DataChunk,
    ) -> Result<SinkResult, AllocError> {
        self.sink.sink(alloc, context, chunk)
    }

    fn combine(&mut self, alloc: Global, other: ReProjectSink<S>) -> Result<(), AllocError> {
        let ReProjectSink { schema: _, sink } = other;
        self.sink.combine(alloc, sink)
    }

    fn split(&self, alloc: Global, thread_no: usize) -> Result<ReProjectSink<S>, AllocError> {
        Ok(ReProjectSink {
            schema: self.schema.try_clone()?,
            sink: self.sink.split(alloc, thread_no)?,
        })
    }

    fn finalize(
        self,
        alloc: Global,
        context: &PExecutionContext,
    ) -> Result<FinalizedSink<S::Built, PhysSource>, AllocError> {
        let ReProjectSink { schema, sink } = self;
        match sink.finalize(alloc, context)? {
            FinalizedSink::Finished(frame) => {
                let made = reprojected_frame(alloc, frame, &schema)?;
                Ok(FinalizedSink::Finished(made))
            }
            FinalizedSink::Operator(built) => Ok(FinalizedSink::Operator(built)),
            FinalizedSink::Source(source) => {
                let made = ReProjectSource::new(alloc, schema, source)?;
                Ok(FinalizedSink::Source(PhysSource::ReProject(made)))
            }
        }
    }

    fn is_join_build(&self) -> bool {
        self.sink.is_join_build()
    }

    fn node(&self) -> u32 {
        self.sink.node()
    }

    fn fmt(&self) -> &str {
        "re-project-sink"
    }

    ghost respects = { around_any_order S.respects };
}
