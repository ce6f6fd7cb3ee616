//! The trusted edge: readers and writers over the system's streams and files, which tell nothing of content.

ghost use Rattle.std.specs.Prelude.{◌≡◌, ◌≤◌};
ghost use Rattle.pipe_schema.specs.Counts.{Rises};
ghost use Rattle.pipe_stream.specs.Outside.{untold_input, untold_output};

use crate::outside::{JobReader, ReadFailed, RowWriter, WriteFailed};
use std::fs;
use std::io::{Read, Write};
use std::rt::Files;

/// A reader over standard input, or after `open_named` over the file of that name.
#[derive(Drop)]
pub struct SystemReader<'a, F: Files, S> {
    files: &'a F,
    standard: S,
    file: Option<F::File>,
    taken: u64,
    failed: u64,
}

impl<'a, F: Files, S: Read> SystemReader<'a, F, S> {
    /// A reader over this standard input and these files.
    pub fn new(files: &'a F, standard: S) -> SystemReader<'a, F, S>
        ensures taken { (⟦<SystemReader<'a, F, S> as JobReader>⟧.seen result).taken ≡ 0 }
        ensures faults { (⟦<SystemReader<'a, F, S> as JobReader>⟧.seen result).faults ≡ 0 }
    {
        SystemReader {
            files,
            standard,
            file: None,
            taken: 0,
            failed: 0,
        }
    }

    /// Counts a fault.
    fn fail(&mut self) -> ReadFailed
        ensures rises { Rises self.old.failed self.new.failed }
        ensures faults { self.old.failed ≤ self.new.failed }
        ensures taken { self.new.taken ≡ self.old.taken }
    {
        self.failed = self.failed.saturating_add(1);
        ReadFailed
    }
}

impl<'a, F: Files, S: Read> JobReader for SystemReader<'a, F, S> {
    ghost seen = { λ r. untold_input r.taken r.failed };

    /// A name that is no text, or that no file has which can be read, fails.
    fn open_named(&mut self, name: &[u8]) -> Result<(), ReadFailed> {
        let Ok(path) = str::from_utf8(name) else {
            return Err(self.fail());
        };
        match fs::open(self.files, path) {
            Ok(file) => {
                self.file = Some(file);
                Ok(())
            }
            Err(_) => Err(self.fail()),
        }
    }

    fn read(&mut self, buffer: &mut [u8]) -> Result<usize, ReadFailed> {
        let answer = match &mut self.file {
            Some(file) => file.read(buffer),
            None => self.standard.read(buffer),
        };
        match answer {
            Ok(n) => {
                self.taken = self.taken.saturating_add(n as u64);
                Ok(n)
            }
            Err(_) => Err(self.fail()),
        }
    }
}

/// A writer over an output stream.
#[derive(Drop)]
pub struct StreamWriter<S> {
    stream: S,
    failed: u64,
}

impl<S: Write> StreamWriter<S> {
    /// A writer over this stream.
    pub fn new(stream: S) -> StreamWriter<S>
        ensures { (⟦<StreamWriter<S> as RowWriter>⟧.seen result).faults ≡ 0 }
    {
        StreamWriter { stream, failed: 0 }
    }
}

impl<S: Write> RowWriter for StreamWriter<S> {
    ghost seen = { λ w. untold_output w.failed };

    /// A stream that takes nothing of a piece fails.
    fn write(&mut self, piece: &[u8]) -> Result<usize, WriteFailed> {
        match self.stream.write(piece) {
            Ok(n) if n > 0 => Ok(n),
            _ => {
                self.failed = self.failed.saturating_add(1);
                Err(WriteFailed)
            }
        }
    }
}
