//! Stop checks and gates.

use crate::frames::told::line;
use pipe_schema::{Gate, NeverStop, OpenGate, StopAfter, StopCheck};
use std::alloc::{AllocError, Global};

fn stop_after(alloc: Global) -> Result<String, AllocError> {
    let mut stop = StopAfter::new(2);
    let mut line = String::new(alloc);
    for _ in 0..4 {
        line.push_str(if stop.should_stop() { "yes " } else { "no " })?;
    }
    format!(in alloc; "{line}{} {}", stop.asked(), stop.yes())
}

fn never_stop(alloc: Global) -> Result<String, AllocError> {
    let mut stop = NeverStop::new();
    let first = stop.should_stop();
    let second = stop.should_stop();
    format!(in alloc; "{first} {second} {}", stop.asked())
}

fn open_gate(alloc: Global) -> Result<String, AllocError> {
    OpenGate.enter(3);
    String::from_str(alloc, "open")
}

pub(crate) fn tell(alloc: Global, answers: &mut String) -> Result<(), AllocError> {
    line(answers, "asked four times after two", stop_after(alloc)?)?;
    line(answers, "asked twice for ever", never_stop(alloc)?)?;
    line(answers, "a gate", open_gate(alloc)?)
}
