//! Real streams: standard input, a file, and an output that takes no more.

use crate::reading::held::text_named;
use crate::told::{shown, tell};
use pipe_stream::{JobReader, StreamWriter, SystemReader, read_whole, write_whole};
use std::alloc::{AllocError, Global};
use std::io::Read;
use std::rt::Files;

/// The reader over standard input and the files of the system.
pub(crate) fn input<F: Files, S: Read>(files: &F, standard: S) -> SystemReader<'_, F, S> {
    SystemReader::new(files, standard)
}

fn tell_standard<R: JobReader>(
    alloc: Global,
    answers: &mut String,
    input: &mut R,
) -> Result<(), AllocError> {
    tell(answers, "standard input")?;
    match read_whole(alloc, input) {
        Ok(bytes) => answers.push_str(shown(bytes.as_slice())),
        Err(_) => answers.push_str("failed\n"),
    }
}

fn tell_named<R: JobReader>(
    alloc: Global,
    answers: &mut String,
    input: &mut R,
    shows: &str,
    name: &[u8],
) -> Result<(), AllocError> {
    tell(answers, shows)?;
    answers.push_str(text_named(alloc, input, name)?.as_str())?;
    answers.push_str("\n")
}

/// A stream with room for 3 bytes, which takes nothing of the fourth.
fn tell_full(answers: &mut String) -> Result<(), AllocError> {
    tell(answers, "4 bytes to a stream with room for 3")?;
    let mut room = [0u8; 3];
    let mut out = StreamWriter::new(room.as_mut_slice());
    answers.push_str(if write_whole(&mut out, b"abcd").is_err() {
        "failed\n"
    } else {
        "written\n"
    })
}

/// What real streams give.
pub(crate) fn stream_answers<R: JobReader>(
    alloc: Global,
    input: &mut R,
) -> Result<String, AllocError> {
    let mut answers = String::new(alloc);
    tell_standard(alloc, &mut answers, input)?;
    tell_named(alloc, &mut answers, input, "a file", b"line.txt")?;
    tell_named(alloc, &mut answers, input, "no file", b"no_such_file")?;
    tell_named(alloc, &mut answers, input, "a name that is no text", &[255])?;
    tell_full(&mut answers)?;
    Ok(answers)
}
