//! Works the operators of a plan's nodes out, joins among them: prints what each case shows, and what comes of it. The plans
//! of joins are jobs, which it reads.
#![tactic(auto)]

mod marks;
mod operators;
mod sides;
mod tables;
mod told;
mod written;

use std::alloc::{AllocError, Global};
use std::io;
use worked_texts::{input_of, part_of};

/// Prints the answers of a part.
fn print_part(rt: &impl Print, answers: Result<String, AllocError>) -> io::Result<()> {
    let answers = answers?;
    print!(rt; "{answers}")
}

/// Prints what comes of the joins of a text.
fn print_joins(rt: &impl Print, alloc: Global, text: &str) -> io::Result<()> {
    let joined = part_of(alloc, text, "== tables")?;
    print_part(rt, tables::answers(alloc, joined.as_slice()))?;
    let marked = part_of(alloc, text, "== marks")?;
    let row_by_row = part_of(alloc, text, "== row by row")?;
    print_part(
        rt,
        marks::answers(alloc, marked.as_slice(), row_by_row.as_slice()),
    )
}

fn main(rt: HostRuntime) -> io::Result<()> {
    let alloc = rt.alloc();
    print_part(&rt, operators::answers(alloc))?;
    let text = input_of(alloc, &mut rt.reader())?;
    print_joins(&rt, alloc, text.as_str())
}
