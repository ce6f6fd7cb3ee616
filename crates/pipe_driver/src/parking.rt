//! What is left of a pipeline behind a sort waits there.

ghost use Rattle.std.specs.Prelude.{◌≡◌, OnOk, IfSome, IfNone};
ghost use Rattle.std.specs.List.{AllByRecursion};
ghost use Rattle.pipe_driver.specs.Runs.{node_of, Parks, Unparks, StartsElsewhere};

use crate::branch::SinkAt;
use crate::pipe_line::{Leg, PipeLine};
use std::alloc::AllocError;

/// The node of a sink, 0 for the root's.
pub fn node_at(at: SinkAt) -> u32
    ensures { result ≡ node_of at }
{
    match at {
        SinkAt::Ordered => 0,
        SinkAt::Sort(node) => node,
        SinkAt::Build(node) => node,
    }
}

/// What is left of a pipeline behind a sink waits there.
pub fn park<S: Drop, P: Drop>(
    parked: &mut Vec<PipeLine<S, P>>,
    start: u32,
    legs: Vec<Leg<P>>,
) -> Result<(), AllocError>
    ensures { OnOk result (Parks start legs.items parked.old.items parked.new.items) }
{
    if legs.is_empty() {
        drop(legs);
        return Ok(());
    }
    parked.push(PipeLine {
        start,
        source: None,
        legs,
    })?;
    Ok(())
}

/// Takes the pipeline out that waits for a sort.
pub fn unpark<S: Drop, P: Drop>(
    parked: &mut Vec<PipeLine<S, P>>,
    node: u32,
) -> Option<PipeLine<S, P>>
    ensures some { IfSome result (λ q. Unparks node q parked.old.items parked.new.items) }
    ensures none { IfNone result ((parked.new.items ≡ parked.old.items)
        × AllByRecursion (StartsElsewhere node) parked.new.items) }
{
    for i in 0..parked.len() {
        if parked[i].start == node {
            return Some(parked.remove(i));
        }
    }
    None
}
