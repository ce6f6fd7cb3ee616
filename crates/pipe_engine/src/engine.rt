//! What runs legs: the tables of joins, the sinks that legs feed, and the leg that runs.

use crate::part::Part;
use pipe_driver::{PipeLine, Run, SinkAt};
use pipe_events::Event;
use pipe_frame::DataFrame;
use pipe_index::HashesKeys;
use pipe_ops::PExecutionContext;
use pipe_passage::Passage;
use pipe_slots::{PhysSink, Slots};
use pipe_source::PhysSource;

/// What is around a run: how threads are made, and the gate that each worker goes through.
pub struct Tools<'a, R, G> {
    pub threads: &'a R,
    pub gate: &'a G,
}

/// A sink that legs have fed, and how many rows came into it.
#[derive(Drop)]
pub struct FedSink<H: HashesKeys> {
    pub sink: PhysSink<H>,
    pub rows: u64,
    /// Rows that came to the root's sink as a frame. It stays as it is, beside those that the sink holds.
    pub whole: Option<DataFrame>,
}

/// The leg that runs: the place of its sink, and its lanes with the stages that it hasn't left.
#[derive(Drop)]
pub struct OpenLeg<H: HashesKeys> {
    pub at: SinkAt,
    pub passage: Passage<H, PhysSink<H>>,
    /// A sink that holds nothing, for the first leg that feeds the place.
    pub sink: PhysSink<H>,
    /// The frame of its source, where that goes through no operator into the root's sink: it has the rows that the lanes
    /// hold, in their order.
    pub whole: Option<DataFrame>,
}

/// What runs the legs of a plan's pipelines.
#[derive(Drop)]
pub struct Engine<H: HashesKeys> {
    pub context: PExecutionContext,
    /// How many partitions each table has.
    pub parts: u32,
    /// How many nodes the plan has.
    pub nodes: u32,
    /// The slots of joins. What else pipelines share stands here while they run.
    pub slots: Slots<H>,
    /// How many rows each node gave in the legs that have left it.
    pub given: Vec<u64>,
    /// What legs have fed, by the number of the sort or the join; last that of the root.
    pub sinks: Vec<Option<FedSink<H>>>,
    pub leg: Option<OpenLeg<H>>,
    /// The index of the next chunk.
    pub next_index: u64,
    /// What the legs that have run did, leg by leg.
    pub journal: Vec<Event>,
}

/// A pipeline of a plan, and what is there while such pipelines run.
pub type PlanLine<H> = PipeLine<PhysSource, Part<H>>;

pub type PlanRun<H> = Run<Engine<H>, PhysSource, Part<H>>;
