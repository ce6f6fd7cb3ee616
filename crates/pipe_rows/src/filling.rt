//! Rows that are filled column by column in one buffer, each up to the width that it was given.

ghost use Rattle.std.specs.Prelude.{◌≡◌, ◌<◌, ◌≤◌, ◌+◌, ◌∷◌, length, map, IfOk};
ghost use Rattle.pipe_rows.specs.Filling.{appended_at, patched, unwritten, HasRoomAt, AreFull, written_rows};
ghost use Rattle.pipe_rows.specs.Encoded.{marked_rows};

use crate::row_bytes::RowBytes;
use crate::rows_encoded::RowsEncoded;
use std::alloc::{AllocError, Global};
use std::marker::Model;

/// The byte before a value.
pub(crate) const VALUE: u8 = 1;

/// Writes bytes at a place of a buffer.
fn put(buffer: &mut [u8], at: usize, bytes: &[u8])
    requires { at + length bytes.now ≤ length buffer.old }
    ensures { buffer.new ≡ patched buffer.old at bytes.now }
{
    buffer[at..at + bytes.len()].copy_from_slice(bytes);
}

/// Rows in the making, each with a part of the buffer that it will fill.
#[derive(Drop)]
pub(crate) struct RowFiller {
    bytes: Vec<u8>,
    ends: Vec<usize>,
    cursors: Vec<usize>,
}

impl Model for RowFiller {
    ghost use Rattle.std.specs.Prelude.{List, length};
    ghost use Rattle.pipe_rows.specs.Filling.{OpenRow, open_rows, AreWithin};

    ghost Value = { List OpenRow };

    ghost view = { λ f. open_rows 0 f.cursors.items f.ends.items f.bytes.items };

    ghost invariant = { λ f. AreWithin 0 f.cursors.items f.ends.items (length f.bytes.items) };
}

#[tactic(auto, using(crate::proofs::FillingLemmas::filling_rules))]
impl RowFiller {
    /// Rows of these widths, which have no byte yet. Their memory is taken at once.
    pub(crate) fn new(alloc: Global, widths: &[usize]) -> Result<RowFiller, AllocError>
        ensures { IfOk result (λ filler. filler ≡ map unwritten widths.now) }
    {
        let mut ends = Vec::with_capacity(alloc, widths.len())?;
        let mut cursors = Vec::with_capacity(alloc, widths.len())?;
        let mut end: usize = 0;
        for width in widths {
            let Some(next) = end.checked_add(*width) else {
                return Err(AllocError);
            };
            cursors.push(end)?;
            ends.push(next)?;
            end = next;
        }
        let bytes = vec![in alloc; 0; end]?;
        Ok(RowFiller {
            bytes,
            ends,
            cursors,
        })
    }

    /// Writes bytes at the end of what a row has.
    pub(crate) fn append(&mut self, i: usize, bytes: &[u8])
        requires inside { i < length self.old }
        requires room { HasRoomAt self.old i bytes.now }
        ensures { self.new ≡ appended_at self.old i bytes.now }
    {
        let start = self.cursors[i];
        put(&mut self.bytes, start, bytes);
        self.cursors[i] = start + bytes.len();
    }

    /// Writes the byte of a value and its bytes at the end of what a row has.
    pub(crate) fn append_value(&mut self, i: usize, bytes: &[u8])
        requires inside { i < length self.old }
        requires room { HasRoomAt self.old i (1 ∷ bytes.now) }
        ensures { self.new ≡ appended_at self.old i (1 ∷ bytes.now) }
    {
        self.append(i, &[VALUE]);
        self.append(i, bytes);
    }

    /// The rows, each with its mark.
    pub(crate) fn finish(self, marks: Vec<bool>) -> RowsEncoded
        requires full { AreFull self }
        requires marks { length marks.items ≡ length self }
        ensures { result ≡ marked_rows (written_rows self) marks.items }
    {
        let RowFiller {
            bytes,
            ends,
            cursors,
        } = self;
        drop(cursors);
        RowsEncoded::of_parts(RowBytes::from_parts(bytes, ends), marks)
    }
}
