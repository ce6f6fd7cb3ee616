//! Runs of the program over memory.

ghost use Rattle.std.specs.Prelude.{◌<◌};

use crate::case::Case;
use pipe_cli::{MemReader, MemWriter, NamedBytes, run_program, run_words};
use pipe_schema::{Bytes, Gate, List, OpenGate, StopAfter, Text};
use std::alloc::{AllocError, Global};
use std::sync::Wait;
use std::thread::Threads;

/// The most bytes of a read.
const PIECE: u32 = 400;

/// How a run ended: its status, how often its stop check was asked and said yes, what it wrote, and what it noted.
#[derive(Drop)]
pub(crate) struct Ended {
    pub(crate) status: u8,
    pub(crate) asked: u64,
    pub(crate) yes: u64,
    pub(crate) out: MemWriter,
    pub(crate) notes: MemWriter,
}

/// The words of a line, between which bars stand.
fn words_of(alloc: Global, line: &str) -> Result<Vec<Text>, AllocError> {
    let mut words = Vec::new(alloc);
    if line.is_empty() {
        return Ok(words);
    }
    for word in line.split('|') {
        words.push(Text::from_str(alloc, word.trim())?)?;
    }
    Ok(words)
}

/// A list of no number or one.
fn at_most_one(alloc: Global, number: Option<u64>) -> Result<List<u64>, AllocError> {
    let mut numbers = List::new(alloc);
    if let Some(number) = number {
        numbers.push(number)?;
    }
    Ok(numbers)
}

/// So many calls are made on notes that always fail, and no more.
const MOST_NOTES: u64 = 8;

/// What takes notes: each call on it may fail.
fn notes_of(alloc: Global, all_fail: bool) -> Result<MemWriter, AllocError> {
    let mut calls = List::new(alloc);
    if all_fail {
        for call in 1..=MOST_NOTES {
            calls.push(call)?;
        }
    }
    Ok(MemWriter::new(alloc, 1000, calls))
}

/// What a case reads: a text, on standard input or in its file, in pieces of 400 bytes, of which one may fail.
pub(crate) fn input_of(alloc: Global, case: Case<'_>, text: &str) -> Result<MemReader, AllocError> {
    let failing = at_most_one(alloc, case.failing.read)?;
    let bytes = Bytes::from_slice(alloc, text.as_bytes())?;
    let mut files = List::new(alloc);
    if case.file.is_empty() {
        return Ok(MemReader::new(bytes, files, PIECE, failing));
    }
    let name = Bytes::from_slice(alloc, case.file.as_bytes())?;
    files.push(NamedBytes { name, bytes })?;
    Ok(MemReader::new(Bytes::new(alloc), files, PIECE, failing))
}

/// What a case writes to, in pieces of 5 bytes, of which one may fail.
fn output_of(alloc: Global, case: Case<'_>) -> Result<MemWriter, AllocError> {
    Ok(MemWriter::new(alloc, 5, at_most_one(alloc, case.failing.write)?))
}

/// How the program ends by these words on an input.
pub(crate) fn run_on<T: Threads + Wait + Sync>(
    rt: &T,
    alloc: Global,
    case: Case<'_>,
    words: &str,
    input: &mut MemReader,
) -> Result<Ended, AllocError> {
    let words = words_of(alloc, words)?;
    let mut out = output_of(alloc, case)?;
    let mut notes = notes_of(alloc, case.failing.notes)?;
    let mut stop = StopAfter::new(case.failing.left);
    let status = run_words(
        rt,
        alloc,
        words.as_slice(),
        input,
        &mut out,
        &mut notes,
        &mut stop,
        &OpenGate,
    );
    let (asked, yes) = (stop.asked(), stop.yes());
    Ok(Ended {
        status,
        asked,
        yes,
        out,
        notes,
    })
}

/// How the program ends by these words on a text.
pub(crate) fn run_by<T: Threads + Wait + Sync>(
    rt: &T,
    alloc: Global,
    case: Case<'_>,
    words: &str,
    text: &str,
) -> Result<Ended, AllocError> {
    let mut input = input_of(alloc, case, text)?;
    run_on(rt, alloc, case, words, &mut input)
}

/// How the call ends that streams nothing, behind a gate.
pub(crate) fn run_behind<T: Threads + Sync, G: Gate + Sync>(
    rt: &T,
    alloc: Global,
    case: Case<'_>,
    text: &str,
    gate: &G,
) -> Result<Ended, AllocError> {
    let words = words_of(alloc, case.words)?;
    let mut input = input_of(alloc, case, text)?;
    let mut out = output_of(alloc, case)?;
    let mut notes = notes_of(alloc, false)?;
    let mut stop = StopAfter::new(case.failing.left);
    let status = run_program(
        rt,
        alloc,
        words.as_slice(),
        &mut input,
        &mut out,
        &mut notes,
        &mut stop,
        gate,
    );
    let (asked, yes) = (stop.asked(), stop.yes());
    Ok(Ended {
        status,
        asked,
        yes,
        out,
        notes,
    })
}
