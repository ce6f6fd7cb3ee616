//! What is read of bytes in memory.

ghost use Rattle.std.specs.Prelude.{◌≡◌, ◌≤◌, ◌<◌, ◌+◌, [], length, take, Some, None, IfSome, IfNone, IsTrue, IsFalse};
ghost use Rattle.pipe_stream.specs.Outside.{Took};
ghost use Rattle.pipe_stream.specs.Memory.{bytes_named, named_at, source_bytes};
ghost use Rattle.pipe_stream.specs.Shelves.{left_of};

use crate::shelf::{NamedBytes, Shelf};
use pipe_schema::{Bytes, List};
use std::cmp::min;

/// The place of the first file of this name.
fn place_of(files: &[NamedBytes], name: &[u8]) -> Option<usize>
    ensures found { IfSome result
        (λ place. bytes_named files.now name.now ≡ Some (named_at files.now place)) }
    ensures missing { IfNone result (bytes_named files.now name.now ≡ None) }
{
    for (place, file) in files.iter().enumerate() {
        if file.name.as_slice() == name {
            return Some(place);
        }
    }
    None
}

/// Copies bytes from the front of what is left, as many as fit and at most so many, and says how many.
fn copy_front(buffer: &mut [u8], left: &[u8], most: usize) -> usize
    requires buffer { 0 < length buffer.old }
    requires most { 0 < most }
    ensures within { result ≤ length buffer.new }
    ensures at_most { result ≤ most }
    ensures there { result ≤ length left.now }
    ensures bytes { take result buffer.new ≡ take result left.now }
    ensures end { result ≡ 0 → left.now ≡ [] }
{
    let n = min(min(buffer.len(), most), left.len());
    buffer[..n].copy_from_slice(&left[..n]);
    n
}

impl Shelf {
    /// Standard input is read first.
    pub(crate) fn new(standard: Bytes, files: List<NamedBytes>) -> Shelf
        ensures left { left_of result ≡ standard }
        ensures files { result.files ≡ files }
    {
        Shelf {
            standard,
            files,
            source: None,
            at: 0,
        }
    }

    /// All of what is read.
    fn source(&self) -> &[u8]
        ensures { result.now ≡ source_bytes self.now.standard self.now.files self.now.source }
    {
        match self.source {
            None => self.standard.as_slice(),
            Some(place) => match self.files.as_slice().get(place) {
                Some(file) => file.bytes.as_slice(),
                None => &[],
            },
        }
    }

    /// What is left to read.
    fn left(&self) -> &[u8]
        ensures left { result.now ≡ left_of self.now }
        ensures place { self.now.at + length result.now ≤ usize.MAX }
    {
        let source = self.source();
        &source[self.at..]
    }

    /// Reads a file from its start, and says whether there is one of this name.
    pub(crate) fn open(&mut self, name: &[u8]) -> bool
        ensures files { self.new.files ≡ self.old.files }
        ensures found { IsTrue result →
            bytes_named self.old.files name.now ≡ Some (left_of self.new) }
        ensures missing { IsFalse result → bytes_named self.old.files name.now ≡ None }
        ensures stays { IsFalse result → self.new ≡ self.old }
    {
        match place_of(self.files.as_slice(), name) {
            Some(place) => {
                self.source = Some(place);
                self.at = 0;
                true
            }
            None => false,
        }
    }

    /// Leaves nothing to read.
    pub(crate) fn close(&mut self)
        ensures left { left_of self.new ≡ [] }
        ensures files { self.new.files ≡ self.old.files }
    {
        self.at = self.source().len();
    }

    /// Takes at most so many bytes from the front of what is left, and says how many.
    pub(crate) fn take(&mut self, buffer: &mut [u8], most: usize) -> usize
        requires buffer { 0 < length buffer.old }
        requires most { 0 < most }
        ensures within { result ≤ length buffer.new }
        ensures at_most { result ≤ most }
        ensures took { Took result buffer.new (left_of self.old) (Some (left_of self.new)) }
        ensures files { self.new.files ≡ self.old.files }
    {
        let n = copy_front(buffer, self.left(), most);
        self.at += n;
        n
    }
}
