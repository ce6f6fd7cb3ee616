//! The sinks that legs feed.

ghost use Rattle.std.specs.Prelude.{◌≡◌};
ghost use Rattle.pipe_driver.specs.Legs.{sink_node};

use pipe_driver::SinkAt;

/// The place of a sink among those of a plan of so many nodes: the number of its sort or join, and last that of the root.
pub(crate) fn place_of(nodes: u32, at: SinkAt) -> u32
    ensures { result ≡ sink_node nodes at }
{
    match at {
        SinkAt::Ordered => nodes,
        SinkAt::Sort(node) => node,
        SinkAt::Build(node) => node,
    }
}
