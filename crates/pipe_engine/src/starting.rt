//! An engine over what the pipelines of a plan share.

ghost use Rattle.std.specs.Prelude.{◌≡◌, ℕ, suc, None, length, IfOk};
ghost use Rattle.pipe_engine.specs.Engine.{sink_at, IsIdle, NoneOpen};
ghost use Rattle.pipe_engine.specs.Left.{Shares};

use crate::engine::{Engine, FedSink};
use pipe_events::Event;
use pipe_index::HashesKeys;
use pipe_ops::PExecutionContext;
use pipe_slots::Slots;
use std::alloc::{AllocError, Global};

/// The places of sinks, one a node and one for the root's, all empty.
fn no_sinks<H: HashesKeys>(alloc: Global, nodes: u32) -> Result<Vec<Option<FedSink<H>>>, AllocError>
    ensures long { IfOk result (λ sinks. length sinks.items ≡ suc nodes) }
    ensures empty { IfOk result (λ sinks. (k : ℕ) → sink_at sinks.items k ≡ None) }
{
    let mut sinks = Vec::with_capacity(alloc, nodes as usize + 1)?;
    for _node in 0..nodes {
        sinks.push(None)?;
    }
    sinks.push(None)?;
    Ok(sinks)
}

impl<H: HashesKeys> Engine<H> {
    /// An engine for a plan of so many nodes, over what its pipelines share, and the journal of those that have run: no
    /// leg runs, and no sink is open.
    pub fn new(
        alloc: Global,
        context: PExecutionContext,
        parts: u32,
        nodes: u32,
        shared: Slots<H>,
        journal: Vec<Event>,
    ) -> Result<Engine<H>, AllocError>
        ensures context { IfOk result (λ e. e.context ≡ context) }
        ensures parts { IfOk result (λ e. e.parts ≡ parts) }
        ensures nodes { IfOk result (λ e. e.nodes ≡ nodes) }
        ensures shares { IfOk result (Shares shared) }
        ensures idle { IfOk result (λ e. IsIdle e) }
        ensures places { IfOk result (λ e. length e.sinks.items ≡ suc nodes) }
        ensures none_open { IfOk result (λ e. NoneOpen e) }
        ensures journal { IfOk result (λ e. e.journal ≡ journal) }
    {
        let sinks = no_sinks(alloc, nodes)?;
        let Slots {
            slots,
            seats,
            workers,
            given,
        } = shared;
        let slots = Slots {
            slots,
            seats,
            workers,
            given: Vec::new(alloc),
        };
        Ok(Engine {
            context,
            parts,
            nodes,
            slots,
            given,
            sinks,
            leg: None,
            next_index: 0,
            journal,
        })
    }
}
