//! The plain program on jobs: what a run of a job ends with, by the definitions alone.
//!
//! Without a word it reads one job, writes its rows or notes why there are none, and ends with the status. With the
//! word `many` it reads jobs one after another, each behind a line with its length in bytes, and writes for each a
//! line with the status and the length of what follows: the rows, or the line that would be noted.
#![tactic(auto)]

mod answer;
mod many;
mod refusal;
mod table;

use crate::answer::{Answer, answer_to};
use crate::many::answer_each;
use crate::refusal::BAD_WORDS;
use std::alloc::Global;
use std::io::{BufReader, BufWriter, Read, Write};
use std::process::ExitCode;
use std::rt::Env;
use std::{env, io};

/// What is asked for.
#[derive(Clone, Copy)]
enum Command {
    One,
    Many,
    Unknown,
}

/// What a word asks for.
fn command_of(word: Option<&str>) -> Command {
    match word {
        None => Command::One,
        Some("many") => Command::Many,
        Some(_) => Command::Unknown,
    }
}

/// What the first word that the program was called with asks for.
fn command_asked(rt: &(impl Env + Alloc<A = Global>)) -> io::Result<Command> {
    let mut words = env::args(rt)?;
    let _name = words.next();
    match words.next() {
        Some(word) => Ok(command_of(Some(word.as_str()))),
        None => Ok(command_of(None)),
    }
}

/// The answer to the one job that is read.
fn answer_one(alloc: Global, input: &mut impl Read) -> io::Result<Answer> {
    let mut bytes = Vec::new(alloc);
    input.read_to_end(&mut bytes)?;
    Ok(answer_to(alloc, bytes.as_slice())?)
}

/// Writes rows to the output, and why there are none to the notes.
fn write_answer(out: &mut impl Write, notes: &mut impl Write, told: &Answer) -> io::Result<()> {
    if told.status == 0 {
        out.write_all(told.text.as_slice())
    } else {
        notes.write_all(told.text.as_slice())
    }
}

fn run(rt: &HostRuntime) -> io::Result<u8> {
    let alloc = rt.alloc();
    let mut input = BufReader::new(alloc, rt.reader())?;
    match command_asked(rt)? {
        Command::One => {
            let told = answer_one(alloc, &mut input)?;
            write_answer(&mut rt.stdout(), &mut rt.stderr(), &told)?;
            Ok(told.status)
        }
        Command::Many => {
            let mut out = BufWriter::new(alloc, rt.stdout())?;
            answer_each(alloc, &mut input, &mut out)?;
            out.flush()?;
            Ok(0)
        }
        Command::Unknown => {
            rt.stderr().write_all(BAD_WORDS.as_bytes())?;
            Ok(1)
        }
    }
}

fn main(rt: HostRuntime) -> io::Result<ExitCode> {
    Ok(ExitCode::from(run(&rt)?))
}
