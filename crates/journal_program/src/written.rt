//! Events as lines.

use pipe_events::{Event, Side};
use std::alloc::{AllocError, Global};

fn side_name(side: Side) -> &'static str {
    match side {
        Side::Sort => "Sort",
        Side::Build => "Build",
        Side::Probe => "Probe",
    }
}

/// The line of an event. A run writes no mark by itself: `Done` stands for the marks too.
pub(crate) fn event_line(alloc: Global, event: &Event) -> Result<String, AllocError> {
    match event {
        Event::Take {
            worker,
            source,
            from,
            count,
        } => format!(in alloc; "[\"Take\",{worker},{source},{from},{count}]\n"),
        Event::Mark { worker, join, .. } => format!(in alloc; "[\"Mark\",{worker},{join}]\n"),
        Event::Emit { worker } => format!(in alloc; "[\"Emit\",{worker}]\n"),
        Event::Done { worker } => format!(in alloc; "[\"Done\",{worker}]\n"),
        Event::Close { node, side } => {
            let name = side_name(*side);
            format!(in alloc; "[\"Close\",{node},\"{name}\"]\n")
        }
        Event::Flush { worker, join, part } => {
            format!(in alloc; "[\"Flush\",{worker},{join},{part}]\n")
        }
    }
}
