//! Byte strings one after another in one buffer, so that none of them has an allocation of its own.

ghost use Rattle.std.specs.Prelude.{◌≡◌, ℕ, ◌<◌, ◌≤◌, ◌+◌, ◌^◌, [], ◌∷◌, ◌++◌, length, All, IfOk, OnOk, OnErr, map, take, drop, slice_index_or, vec_len, vec_capacity};
ghost use Rattle.pipe_column.specs.Column.{EndsFrom, pieces_from, less, more};

use std::alloc::{AllocError, Global};
use std::marker::Model;

/// A list of byte strings, each told by where it ends in the one buffer.
#[derive(Debug, Drop)]
pub struct BytesList {
    bytes: Vec<u8>,
    ends: Vec<usize>,
}

impl Model for BytesList {
    ghost use Rattle.std.specs.Prelude.{ℕ, List, length};
    ghost use Rattle.pipe_column.specs.Column.{EndsFrom, pieces_from};

    ghost Value = { List (List ℕ) };

    ghost view = { λ l. pieces_from 0 l.bytes.items l.ends.items };

    ghost invariant = { λ l. EndsFrom 0 (length l.bytes.items) l.ends.items };
}

/// Where the piece at a place begins.
#[tactic(auto, using(crate::proofs::Pieces::pieces_rules))]
fn start_of(ends: &[usize], i: usize) -> usize
    requires { i ≤ length ends.now }
    ensures { result ≡ slice_index_or (0 ∷ ends.now) i 0 }
{
    if i == 0 { 0 } else { ends[i - 1] }
}

/// The piece at a place.
#[tactic(auto, using(crate::proofs::Pieces::pieces_rules))]
fn piece<'a>(bytes: &'a [u8], ends: &[usize], i: usize) -> &'a [u8]
    requires inside { i < length ends.now }
    requires ends { EndsFrom 0 (length bytes.now) ends.now }
    ensures { result.now ≡ slice_index_or (pieces_from 0 bytes.now ends.now) i [] }
{
    &bytes[start_of(ends, i)..ends[i]]
}

/// These ends, counted from a later start.
fn ends_after(alloc: Global, ends: &[usize], start: usize) -> Result<Vec<usize>, AllocError>
    ensures { IfOk result (λ made. made.items ≡ map (less start) ends.now) }
{
    let mut made = Vec::with_capacity(alloc, ends.len())?;
    for end in ends {
        made.push(end.saturating_sub(start))?;
    }
    Ok(made)
}

/// Puts further ends behind some ends, counted from an earlier start.
fn push_ends(ends: &mut Vec<usize>, further: &[usize], start: usize)
    requires room { vec_len ends.old + length further.now ≤ vec_capacity ends.old }
    requires fits { All (λ end. start + end < 2 ^ 64) further.now }
    ensures { ends.new.items ≡ ends.old.items ++ map (more start) further.now }
{
    for end in further {
        ends.push_reserved(start + *end);
    }
}

#[tactic(auto, using(crate::proofs::Pieces::pieces_rules))]
impl BytesList {
    /// A list with no byte string, which takes no memory.
    pub fn new(alloc: Global) -> BytesList
        ensures { result ≡ [] }
    {
        BytesList {
            bytes: Vec::new(alloc),
            ends: Vec::new(alloc),
        }
    }

    /// A list with no byte string, and room for the ends of so many.
    pub(crate) fn with_room(alloc: Global, ends: usize) -> Result<BytesList, AllocError>
        ensures { IfOk result (λ made. made ≡ []) }
    {
        Ok(BytesList {
            bytes: Vec::new(alloc),
            ends: Vec::with_capacity(alloc, ends)?,
        })
    }

    /// The byte strings of a buffer that end at these places.
    pub fn from_parts(bytes: Vec<u8>, ends: Vec<usize>) -> BytesList
        requires { EndsFrom 0 (length bytes.items) ends.items }
        ensures { result ≡ pieces_from 0 bytes.items ends.items }
    {
        BytesList { bytes, ends }
    }

    /// The allocator of the list.
    pub(crate) fn allocator(&self) -> Global {
        *self.ends.allocator()
    }

    /// How many byte strings there are.
    pub fn len(&self) -> usize
        ensures { result ≡ length self.now }
    {
        self.ends.len()
    }

    /// The byte string at a place.
    pub fn get(&self, i: usize) -> &[u8]
        requires { i < length self.now }
        ensures { result.now ≡ slice_index_or self.now i [] }
    {
        piece(self.bytes.as_slice(), self.ends.as_slice(), i)
    }

    /// Puts a byte string at the end.
    pub fn push(&mut self, piece: &[u8]) -> Result<(), AllocError>
        ensures ok { OnOk result (self.new ≡ self.old ++ piece.now ∷ []) }
        ensures err { OnErr result (self.new ≡ self.old) }
    {
        self.ends.reserve(1)?;
        self.bytes.extend_from_slice(piece)?;
        self.ends.push_reserved(self.bytes.len());
        Ok(())
    }
}

#[tactic(auto, using(crate::proofs::Pieces::pieces_rules))]
impl BytesList {
    /// So many byte strings from a place on.
    pub(crate) fn slice(&self, from: usize, count: usize) -> Result<BytesList, AllocError>
        requires { from + count ≤ length self.now }
        ensures { IfOk result (λ part. part ≡ take count (drop from self.now)) }
    {
        let alloc = self.allocator();
        let start = start_of(self.ends.as_slice(), from);
        let end = start_of(self.ends.as_slice(), from + count);
        Ok(BytesList {
            bytes: Vec::from_slice(alloc, &self.bytes[start..end])?,
            ends: ends_after(alloc, &self.ends[from..from + count], start)?,
        })
    }

    /// Puts the byte strings of another list at the end.
    pub fn append(&mut self, other: &BytesList) -> Result<(), AllocError>
        ensures ok { OnOk result (self.new ≡ self.old ++ other.now) }
        ensures err { OnErr result (self.new ≡ self.old) }
    {
        let start = self.bytes.len();
        self.ends.reserve(other.ends.len())?;
        self.bytes.extend_from_slice(other.bytes.as_slice())?;
        push_ends(&mut self.ends, other.ends.as_slice(), start);
        Ok(())
    }

    /// Keeps so many byte strings, from the front.
    pub(crate) fn truncate(&mut self, count: usize)
        ensures { self.new ≡ take count self.old }
    {
        if count >= self.len() {
            return;
        }
        let end = start_of(self.ends.as_slice(), count);
        self.bytes.truncate(end);
        self.ends.truncate(count);
    }

    /// Gives back the memory that no byte string takes.
    pub fn shrink(&mut self)
        ensures { self.new ≡ self.old }
    {
        self.bytes.shrink_to_fit();
        self.ends.shrink_to_fit();
    }

    /// A copy.
    pub(crate) fn copied(&self) -> Result<BytesList, AllocError>
        ensures { IfOk result (λ copy. copy ≡ self.now) }
    {
        let alloc = self.allocator();
        Ok(BytesList {
            bytes: Vec::from_slice(alloc, self.bytes.as_slice())?,
            ends: Vec::from_slice(alloc, self.ends.as_slice())?,
        })
    }
}
