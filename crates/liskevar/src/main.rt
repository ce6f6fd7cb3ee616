//! The program: it makes the real reader and writers, calls the top call, which starts the threads of a run, and ends
//! with its status.
#![tactic(auto)]

use pipe_cli::{Refusal, StreamWriter, SystemReader, run_words};
use pipe_schema::{NeverStop, OpenGate, Text};
use std::alloc::Global;
use std::io::Write;
use std::process::ExitCode;
use std::rt::Env;
use std::{env, io};

/// The words that the program was called with, after its own name.
fn words_of(rt: &(impl Env + Alloc<A = Global>)) -> io::Result<Vec<Text>> {
    let alloc = rt.alloc();
    let mut words = Vec::new(alloc);
    for word in env::args(rt)?.skip(1) {
        words.push(Text::from_string(word))?;
    }
    Ok(words)
}

/// Why the words weren't taken: one of them is no text, and so no command, or there is want of memory.
fn refusal_of(error: &io::Error) -> Refusal {
    match error.kind() {
        io::ErrorKind::InvalidData => Refusal::BadWords,
        _ => Refusal::Memory,
    }
}

/// Notes a refusal, and gives its status.
fn refused(notes: &mut impl Write, refusal: Refusal) -> ExitCode {
    let _ = notes.write_all(refusal.line());
    ExitCode::from(refusal.status())
}

fn main(rt: HostRuntime) -> ExitCode {
    let alloc = rt.alloc();
    let words = match words_of(&rt) {
        Ok(words) => words,
        Err(error) => return refused(&mut rt.stderr(), refusal_of(&error)),
    };
    let mut input = SystemReader::new(&rt, rt.stdin());
    let mut out = StreamWriter::new(rt.stdout());
    let mut notes = StreamWriter::new(rt.stderr());
    let status = run_words(
        &rt,
        alloc,
        words.as_slice(),
        &mut input,
        &mut out,
        &mut notes,
        &mut NeverStop::new(),
        &OpenGate,
    );
    ExitCode::from(status)
}
