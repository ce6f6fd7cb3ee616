//! A reader in memory that never fails.

ghost use Rattle.std.specs.Prelude.{◌≡◌};
ghost use Rattle.pipe_stream.specs.Memory.{sure_input};
ghost use Rattle.pipe_stream.specs.Shelves.{left_of};

use crate::outside::{JobReader, ReadFailed};
use crate::shelf::{NamedBytes, Shelf};
use pipe_schema::{Bytes, List};

/// A reader over bytes in memory that never fails.
#[derive(Debug, Drop)]
pub struct SureReader {
    shelf: Shelf,
    taken: u64,
}

impl SureReader {
    /// A reader of standard input or one of these files. A name that no file has stands for no byte.
    pub fn new(standard: Bytes, files: List<NamedBytes>) -> SureReader
        ensures { ⟦<SureReader as JobReader>⟧.seen result ≡ sure_input standard files 0 }
    {
        SureReader {
            shelf: Shelf::new(standard, files),
            taken: 0,
        }
    }
}

impl JobReader for SureReader {
    ghost seen = { λ r. sure_input (left_of r.shelf) r.shelf.files r.taken };

    fn open_named(&mut self, name: &[u8]) -> Result<(), ReadFailed> {
        if !self.shelf.open(name) {
            self.shelf.close();
        }
        Ok(())
    }

    fn read(&mut self, buffer: &mut [u8]) -> Result<usize, ReadFailed> {
        let most = buffer.len();
        let n = self.shelf.take(buffer, most);
        self.taken = self.taken.saturating_add(n as u64);
        Ok(n)
    }
}
