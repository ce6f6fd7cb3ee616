//! Works expressions and plans out: prints what each shows, and what is told of it. Most stand in jobs, which it reads.
#![tactic(auto)]

mod alike;
mod checks;
mod exprs;
mod lines;
mod misfits;
mod plans;
mod written;

use std::alloc::{AllocError, Global};
use std::io;
use worked_texts::{input_of, part_of};

/// Prints the answers of a part.
fn print_part(rt: &impl Print, answers: Result<String, AllocError>) -> io::Result<()> {
    let answers = answers?;
    print!(rt; "{answers}")
}

/// Prints what comes of the expressions and plans of a text.
fn print_all(rt: &impl Print, alloc: Global, text: &str) -> io::Result<()> {
    let selected = part_of(alloc, text, "== exprs")?;
    print_part(rt, exprs::answers(alloc, selected.as_slice()))?;
    let checked = part_of(alloc, text, "== checks")?;
    let copied = part_of(alloc, text, "== copied")?;
    let worked = part_of(alloc, text, "== plans")?;
    print_part(
        rt,
        checks::answers(alloc, checked.as_slice(), copied.as_slice()),
    )?;
    print_part(rt, plans::answers(alloc, worked.as_slice()))
}

fn main(rt: HostRuntime) -> io::Result<()> {
    let alloc = rt.alloc();
    let text = input_of(alloc, &mut rt.reader())?;
    print_all(&rt, alloc, text.as_str())
}
