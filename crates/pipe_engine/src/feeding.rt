//! What legs fed, by the places of their sinks.

ghost use Rattle.std.specs.Prelude.{◌≡◌, ℕ, ◌==◌, ◌<◌, Some, None, length, if◌then◌else◌};
ghost use Rattle.pipe_engine.specs.Engine.{fed_or_new, sink_at};

use crate::engine::FedSink;
use pipe_index::HashesKeys;
use pipe_slots::PhysSink;
use std::mem::replace;

/// The place of what a leg fed is emptied.
pub(crate) fn take_fed<H: HashesKeys>(
    sinks: &mut Vec<Option<FedSink<H>>>,
    place: u32,
) -> Option<FedSink<H>>
    requires { place < length sinks.old.items }
    ensures fed { result ≡ sink_at sinks.old.items place }
    ensures sinks { (s : ℕ) → sink_at sinks.new.items s
        ≡ (if s == place then None else sink_at sinks.old.items s) }
    ensures length { length sinks.new.items ≡ length sinks.old.items }
{
    replace(&mut sinks[place as usize], None)
}

/// The place of what a leg fed is filled.
pub(crate) fn put_fed<H: HashesKeys>(
    sinks: &mut Vec<Option<FedSink<H>>>,
    place: u32,
    fed: FedSink<H>,
)
    requires { place < length sinks.old.items }
    ensures sinks { (s : ℕ) → sink_at sinks.new.items s
        ≡ (if s == place then Some fed else sink_at sinks.old.items s) }
    ensures length { length sinks.new.items ≡ length sinks.old.items }
{
    sinks[place as usize] = Some(fed);
}

/// The sink that was fed, or an empty one.
pub(crate) fn fed_or<H: HashesKeys>(fed: Option<FedSink<H>>, sink: PhysSink<H>) -> FedSink<H>
    ensures { result ≡ fed_or_new fed sink }
{
    match fed {
        Some(fed) => {
            drop(sink);
            fed
        }
        None => FedSink {
            sink,
            rows: 0,
            whole: None,
        },
    }
}
