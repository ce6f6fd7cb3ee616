//! Works commands out: reads cases, runs the program on each, and prints what the case shows and how it ended.
//!
//! The cases stand in the file `stdin`, whose head tells their form, and the answers in `stdout`, written by hand.
#![tactic(auto)]

mod case;
mod hashed;
mod jobs;
mod joins;
mod made;
mod numbers;
mod optimized;
mod parts;
mod questions;
mod runs;
mod sides;
mod told;

use crate::parts::{answers, parts_of};
use std::alloc::AllocError;
use std::io::{self, BufReader, Read};

/// Prints the answers of a part.
fn print_part(rt: &impl Print, answers: Result<String, AllocError>) -> io::Result<()> {
    let answers = answers?;
    print!(rt; "{answers}")
}

fn main(rt: HostRuntime) -> io::Result<()> {
    let alloc = rt.alloc();
    let mut bytes = Vec::new(alloc);
    BufReader::new(alloc, rt.reader())?.read_to_end(&mut bytes)?;
    for part in parts_of(bytes.as_slice()).split("\n== ") {
        print_part(&rt, answers(&rt, alloc, part))?;
    }
    Ok(())
}
