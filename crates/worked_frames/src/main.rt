//! Works frames and the encodings of their rows out: prints what each call gives.
#![tactic(auto)]

mod frames;
mod keys;

use std::alloc::AllocError;
use std::io;

/// Prints the answers of a part.
fn print_part(rt: &impl Print, answers: Result<String, AllocError>) -> io::Result<()> {
    let answers = answers?;
    print!(rt; "{answers}")
}

fn main(rt: HostRuntime) -> io::Result<()> {
    let alloc = rt.alloc();
    print_part(&rt, frames::answers(&rt, alloc))?;
    keys::print_all(&rt, alloc)
}
