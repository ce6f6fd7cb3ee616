//! Works out what is made of plans before they run: prints their branches, where the conjuncts of filters go, the
//! nodes of rewritten plans, and how plans may be cut into parts. The plans are jobs, which it reads.
#![tactic(auto)]

mod branches;
mod optimize;
mod parts;
mod rules;
mod shown;
mod written;

use std::alloc::{AllocError, Global};
use std::io;
use worked_texts::{input_of, part_of};

/// Prints the answers of a part.
fn print_part(rt: &impl Print, answers: Result<String, AllocError>) -> io::Result<()> {
    let answers = answers?;
    print!(rt; "{answers}")
}

/// Prints the branches of plans, and where the conjuncts of filters go.
fn print_cuts(rt: &impl Print, alloc: Global, text: &str) -> io::Result<()> {
    let cut = part_of(alloc, text, "== branches")?;
    print_part(rt, branches::answers(alloc, cut.as_slice()))?;
    let filtered = part_of(alloc, text, "== rules")?;
    print_part(rt, rules::answers(alloc, filtered.as_slice()))
}

/// Prints rewritten plans, and how plans may be cut into parts.
fn print_made(rt: &impl Print, alloc: Global, text: &str) -> io::Result<()> {
    let rewritten = part_of(alloc, text, "== optimize")?;
    print_part(rt, optimize::answers(alloc, rewritten.as_slice()))?;
    let parted = part_of(alloc, text, "== parts")?;
    print_part(rt, parts::answers(alloc, parted.as_slice()))?;
    let told = part_of(alloc, text, "== lines")?;
    print_part(rt, parts::lines(alloc, told.as_slice()))
}

fn main(rt: HostRuntime) -> io::Result<()> {
    let alloc = rt.alloc();
    let text = input_of(alloc, &mut rt.reader())?;
    print_cuts(&rt, alloc, text.as_str())?;
    print_made(&rt, alloc, text.as_str())
}
