//! Works lists of events and of edits out: prints what each shows, and what comes of it. It reads the lists of events.
#![tactic(auto)]

mod events;
mod views;

use std::alloc::{AllocError, Global};
use std::io;
use worked_texts::input_of;

/// Prints the answers of a part.
fn print_part(rt: &impl Print, answers: Result<String, AllocError>) -> io::Result<()> {
    let answers = answers?;
    print!(rt; "{answers}")
}

fn main(rt: HostRuntime) -> io::Result<()> {
    let alloc = rt.alloc();
    let text = input_of(alloc, &mut rt.reader())?;
    print_part(&rt, events::answers(alloc, text.as_str()))?;
    print_part(&rt, views::answers(alloc))
}
