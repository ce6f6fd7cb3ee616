//! Sinks: where the chunks of a pipeline end.

ghost use Rattle.std.specs.Prelude.{◌≡◌, ℕ, ◌+◌, ◌≤◌, List, [], ◌++◌, length, Bool, true, IfOk};
ghost use Rattle.pipe_frame.specs.Chunks.{HasSchema};
ghost use Rattle.pipe_schema.specs.Rows.{Row, Same};
ghost use Rattle.pipe_schema.specs.declared.field.Field.{Field};
ghost use Rattle.pipe_ops.specs.Endings.{Ends, ending_text};

use crate::context::PExecutionContext;
use pipe_frame::{DataChunk, DataFrame};
use std::alloc::{AllocError, Global};

/// An answer of a sink.
#[derive(Clone, Copy, Debug, PartialEq, Eq)]
pub enum SinkResult {
    /// It wants no further chunk. No sink answers it: the one that did isn't carried over.
    Finished,
    /// It takes further chunks.
    CanHaveMoreInput,
}

/// What a sink ends as.
#[derive(Drop)]
pub enum FinalizedSink<B, S> {
    /// A frame.
    Finished(DataFrame),
    /// What was built, which a probe then reads.
    Operator(B),
    /// A source of the rows.
    Source(S),
}

impl<B, S> FinalizedSink<B, S> {
    /// The word for it.
    pub fn text(&self) -> &str
        ensures { result.now ≡ ending_text self.now }
    {
        match self {
            FinalizedSink::Finished(_) => "finished",
            FinalizedSink::Operator(_) => "operator",
            FinalizedSink::Source(_) => "source",
        }
    }
}

/// What keeps the rows of chunks (polars-pipe's `operators::Sink`). After want of memory a sink may only be dropped.
pub trait Sink: Send + Sync + Sized {
    /// What it ends as where it builds a side of a join.
    type Built;

    /// What it ends as where it ends as a source.
    type Src;

    /// Its kind and settings, which no call changes.
    ghost Setting: { Type 0 };

    ghost setting: { Self → Setting };

    /// The schema of the chunks that it takes, and of the frame or the source that it ends as.
    ghost schema: { Self → List Field };

    ghost gives: { Self → List Field };

    /// The text that stands for it in a pipeline.
    ghost text: { Self → List ℕ };

    /// The rows that it holds.
    ghost held: { Self → List Row };

    /// Whether it builds a side of a join, and which node that join is.
    ghost builds: { Self → Bool };

    ghost number: { Self → ℕ };

    /// The rows of what was built, and of a source.
    ghost built: { Self.Built → List Row };

    ghost left: { Self.Src → List Row };

    /// What is left of a source has this schema.
    ghost supplies: { Self.Src → List Field → Type 0 };

    /// Under these settings, a sink that held the first rows may end with the second.
    ghost ends: { Setting → List Row → List Row → Type 0 };

    /// Adds the rows of a chunk.
    fn sink(
        &mut self,
        alloc: Global,
        context: &PExecutionContext,
        chunk: DataChunk,
    ) -> Result<SinkResult, AllocError>
        requires schema { HasSchema (schema self.old) chunk }
        requires room { length (held self.old) + length chunk.frame.rows ≤ 4294967294 }
        ensures setting { setting self.new ≡ setting self.old }
        ensures schema { schema self.new ≡ schema self.old }
        ensures gives { gives self.new ≡ gives self.old }
        ensures builds { builds self.new ≡ builds self.old }
        ensures number { number self.new ≡ number self.old }
        ensures text { text self.new ≡ text self.old }
        ensures goes_on { IfOk result (λ r. r ≡ SinkResult.CanHaveMoreInput) }
        ensures held { IfOk result
            (λ _. Same (held self.new) (held self.old ++ chunk.frame.rows)) };

    /// Adds the rows of another sink of the same settings.
    fn combine(&mut self, alloc: Global, other: Self) -> Result<(), AllocError>
        requires setting { setting other ≡ setting self.old }
        requires schema { schema other ≡ schema self.old }
        requires room { length (held self.old) + length (held other) ≤ 4294967294 }
        ensures setting { setting self.new ≡ setting self.old }
        ensures schema { schema self.new ≡ schema self.old }
        ensures gives { gives self.new ≡ gives self.old }
        ensures builds { builds self.new ≡ builds self.old }
        ensures number { number self.new ≡ number self.old }
        ensures text { text self.new ≡ text self.old }
        ensures held { IfOk result (λ _. Same (held self.new) (held self.old ++ held other)) };

    /// An empty sink of the same settings for a further lane.
    fn split(&self, alloc: Global, thread_no: usize) -> Result<Self, AllocError>
        ensures setting { IfOk result (λ made. setting made ≡ setting self.now) }
        ensures schema { IfOk result (λ made. schema made ≡ schema self.now) }
        ensures gives { IfOk result (λ made. gives made ≡ gives self.now) }
        ensures builds { IfOk result (λ made. builds made ≡ builds self.now) }
        ensures number { IfOk result (λ made. number made ≡ number self.now) }
        ensures text { IfOk result (λ made. text made ≡ text self.now) }
        ensures empty { IfOk result (λ made. held made ≡ []) };

    /// What it ends as.
    fn finalize(
        self,
        alloc: Global,
        context: &PExecutionContext,
    ) -> Result<FinalizedSink<Self::Built, Self::Src>, AllocError>
        ensures { IfOk result
            (Ends built left supplies (gives self) (builds self)
            (ends (setting self) (held self))) };

    /// Whether it builds a side of a join.
    fn is_join_build(&self) -> bool
        ensures { result ≡ builds self.now };

    /// The join whose side it builds.
    fn node(&self) -> u32
        requires { builds self.now ≡ true }
        ensures { result ≡ number self.now };

    /// The text that stands for it in a pipeline.
    fn fmt(&self) -> &str
        ensures { result.now ≡ text self.now };

    /// It makes no difference in which order the rows came.
    ghost respects: { (s : Setting) (a b rows : List Row) → Same a b → ends s a rows → ends s b rows };
}
