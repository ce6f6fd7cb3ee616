//! Works out what lanes are made of: prints what sources give, what sinks end as, and what lanes do between them.
#![tactic(auto)]

mod lanes;
mod shared;
mod sorts;
mod sources;
mod told;

use std::alloc::AllocError;
use std::io;

/// Prints the answers of a part.
fn print_part(rt: &impl Print, answers: Result<String, AllocError>) -> io::Result<()> {
    let answers = answers?;
    print!(rt; "{answers}")
}

fn main(rt: HostRuntime) -> io::Result<()> {
    let alloc = rt.alloc();
    print_part(&rt, shared::answers(&rt, alloc))?;
    print_part(&rt, sources::answers(alloc))?;
    print_part(&rt, sorts::answers(&rt, alloc))?;
    print_part(&rt, lanes::answers(&rt, alloc))
}
