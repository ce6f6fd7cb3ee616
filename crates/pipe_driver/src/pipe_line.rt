//! Pipelines: a source, and legs that each end in a sink.

use crate::branch::SinkAt;

/// The nodes that a leg goes through, the sink behind them with its number, and what runs it.
#[derive(Drop)]
pub struct Leg<P> {
    pub operators: Vec<u32>,
    pub at: SinkAt,
    pub count: u32,
    pub part: P,
}

/// A pipeline (polars-pipe's `PipeLine`): the node whose rows its source has, and its legs that haven't run. Where it
/// waits for a sort, it has no source yet.
#[derive(Drop)]
pub struct PipeLine<S, P> {
    pub start: u32,
    pub source: Option<S>,
    pub legs: Vec<Leg<P>>,
}
