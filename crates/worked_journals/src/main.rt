//! Works out what the engine does over plans: prints the journals of runs, calls of pipelines, what reconciliations tell,
//! and self-tests.
#![tactic(auto)]

mod fronts;
mod journals;
mod recon;
mod selftest;

use std::alloc::AllocError;
use std::io;

/// Prints the answers of a part.
fn print_part(rt: &impl Print, answers: Result<String, AllocError>) -> io::Result<()> {
    let answers = answers?;
    print!(rt; "{answers}")
}

fn main(rt: HostRuntime) -> io::Result<()> {
    let alloc = rt.alloc();
    print_part(&rt, journals::answers(&rt, alloc))?;
    print_part(&rt, fronts::answers(&rt, alloc))?;
    print_part(&rt, recon::answers(&rt, alloc))?;
    print_part(&rt, selftest::answers(&rt, alloc))
}
