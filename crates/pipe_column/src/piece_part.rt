//! A part of a list of byte strings that several owners share.

ghost use Rattle.std.specs.Prelude.{◌≡◌, ◌<◌, ◌≤◌, ◌+◌, [], length, take, drop, slice_index_or, IfOk};

use crate::bytes_list::BytesList;
use std::alloc::{AllocError, Global};
use std::marker::Model;
use std::sync::Arc;

/// A part of a list of byte strings that several owners share, seen as its byte strings.
#[derive(Debug, Drop)]
pub(crate) struct PiecePart {
    all: Arc<BytesList>,
    from: usize,
    len: usize,
}

impl Model for PiecePart {
    ghost use Rattle.std.specs.Prelude.{ℕ, ◌≤◌, ◌+◌, List, length, take, drop};

    ghost Value = { List (List ℕ) };

    ghost view = { λ p. take p.len (drop p.from p.all.value) };

    ghost invariant = { λ p. p.from + p.len ≤ length p.all.value };
}

impl PiecePart {
    /// All byte strings of a list.
    pub(crate) fn whole(all: Arc<BytesList>) -> PiecePart
        ensures { result ≡ all.value }
    {
        let len = all.len();
        PiecePart { all, from: 0, len }
    }

    /// The allocator of the list.
    pub(crate) fn allocator(&self) -> Global {
        self.all.allocator()
    }

    /// How many byte strings there are.
    pub(crate) fn len(&self) -> usize
        ensures { result ≡ length self.now }
    {
        self.len
    }

    /// The byte string at a place.
    pub(crate) fn get(&self, i: usize) -> &[u8]
        requires { i < length self.now }
        ensures { result.now ≡ slice_index_or self.now i [] }
    {
        let _ = self.all.len();
        self.all.get(self.from + i)
    }

    /// Keeps so many byte strings, from the front.
    pub(crate) fn truncate(&mut self, count: usize)
        ensures { self.new ≡ take count self.old }
    {
        self.len = self.len.min(count);
    }

    /// So many byte strings from a place on, of the same list.
    pub(crate) fn slice(&self, from: usize, count: usize) -> Result<PiecePart, AllocError>
        requires { from + count ≤ length self.now }
        ensures { IfOk result (λ part. part ≡ take count (drop from self.now)) }
    {
        let _ = self.all.len();
        Ok(PiecePart {
            all: self.all.clone()?,
            from: self.from + from,
            len: count,
        })
    }

    /// A list of the byte strings.
    pub(crate) fn copied(&self) -> Result<BytesList, AllocError>
        ensures { IfOk result (λ copy. copy ≡ self.now) }
    {
        self.all.slice(self.from, self.len)
    }
}
