//! Works reading and writing out: prints what readers and writers hold, what the reader of jobs answers, the lines
//! that are written, and what two workers and a writer make of a frame.
#![tactic(auto)]

mod reading;
mod spelling;
mod stream;
mod told;

use std::alloc::AllocError;
use std::io;

/// Prints the answers of a part.
fn print_part(rt: &impl Print, answers: Result<String, AllocError>) -> io::Result<()> {
    let answers = answers?;
    print!(rt; "{answers}")
}

fn main(rt: HostRuntime) -> io::Result<()> {
    let alloc = rt.alloc();
    print_part(&rt, reading::answers(alloc))?;
    let mut input = reading::input(&rt, rt.stdin());
    print_part(&rt, reading::stream_answers(alloc, &mut input))?;
    print_part(&rt, spelling::answers(alloc))?;
    print_part(&rt, stream::answers(&rt, alloc))
}
