//! What is there while pipelines run.

use crate::branch::SinkAt;
use crate::pipe_line::PipeLine;
use crate::sink_counts::SinkCounts;
use pipe_frame::DataFrame;

/// What is there while pipelines run.
#[derive(Drop)]
pub struct Run<R, S, P> {
    /// What runs legs.
    pub runner: R,
    /// The pipelines that wait for the sort that they go on from.
    pub parked: Vec<PipeLine<S, P>>,
    /// How many legs still feed each sink.
    pub counts: SinkCounts,
    /// How many legs still go through each node.
    pub probers: SinkCounts,
}

/// A leg that was run, and isn't counted yet.
#[derive(Drop)]
pub struct Passing {
    pub operators: Vec<u32>,
    pub at: SinkAt,
    pub count: u32,
}

/// A sink that a leg has fed, and how many legs still feed it.
#[derive(Clone, Copy, Debug, PartialEq, Eq)]
pub struct Fed {
    pub at: SinkAt,
    pub count: u32,
    pub left: u32,
}

/// What comes after a leg.
#[derive(Drop)]
pub enum Next<S, P> {
    /// A sort was closed: the pipeline that waited for it goes on.
    GoOn(PipeLine<S, P>),
    /// The next pipeline begins.
    Stay,
    /// The root's sink was closed.
    Answer(DataFrame),
}
