//! The sinks of a branch.

ghost use Rattle.std.specs.Prelude.{◌≡◌, length, IfOk};
ghost use Rattle.std.specs.List.{AllByRecursion};
ghost use Rattle.pipe_driver.specs.Legs.{sink_node};
ghost use Rattle.pipe_convert.specs.Nodes.{nodes_in, meaning_in};
ghost use Rattle.pipe_convert.specs.Steps.{IsThere};
ghost use Rattle.pipe_lines.specs.Layouts.{IsLayout};
ghost use Rattle.pipe_lines.specs.Made.{IsSinkSplit};
ghost use Rattle.pipe_lines.specs.Parts.{AreSinksMade, IsSinkThere};

use crate::layout::Layout;
use crate::threaded_sink::ThreadedSink;
use pipe_check::CheckedPlan;
use pipe_convert::node_count;
use pipe_driver::{SinkAt, SinkNode};
use pipe_ops::Sink;
use pipe_rows::KeyHasher;
use pipe_slots::PhysSink;
use std::alloc::{AllocError, Global};

/// The node of a sink; of the root's sink the number of all nodes.
fn sink_place(plan: &CheckedPlan, at: SinkAt) -> u32
    ensures { result ≡ sink_node (length (nodes_in plan.now)) at }
{
    match at {
        SinkAt::Ordered => node_count(plan),
        SinkAt::Sort(node) => node,
        SinkAt::Build(node) => node,
    }
}

/// A sink for a leg, split from that of its place.
fn leg_sink<H: KeyHasher>(
    alloc: Global,
    plan: &CheckedPlan,
    layout: &Layout<H>,
    at: SinkAt,
) -> Result<PhysSink<H>, AllocError>
    requires layout { IsLayout plan.now layout.now }
    requires there { IsThere (meaning_in plan.now) at }
    ensures { IfOk result (IsSinkSplit plan.now layout.now.specs.items layout.now.sinks.items
        layout.now.hasher layout.now.parts at) }
{
    let place = sink_place(plan, at);
    let Some(sink) = &layout.sinks[place as usize] else {
        unreachable!()
    };
    Ok(sink.split(alloc, 0)?)
}

/// The sinks of a branch, for so many workers.
pub(crate) fn create_sinks<H: KeyHasher>(
    alloc: Global,
    plan: &CheckedPlan,
    layout: &Layout<H>,
    workers: u32,
    sinks: &[SinkNode],
) -> Result<Vec<ThreadedSink<H>>, AllocError>
    requires layout { IsLayout plan.now layout.now }
    requires there { AllByRecursion (IsSinkThere plan.now) sinks.now }
    ensures { IfOk result (λ made. AreSinksMade plan.now layout.now.specs.items
        layout.now.sinks.items layout.now.hasher layout.now.parts workers sinks.now made.items) }
{
    let mut made = Vec::new(alloc);
    for sink in sinks {
        let split = leg_sink(alloc, plan, layout, sink.at)?;
        made.push(ThreadedSink::new(split, sink.count, sink.offset, workers)?)?;
    }
    Ok(made)
}
