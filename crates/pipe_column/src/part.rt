//! A part of a vector that several owners share.

ghost use Rattle.std.specs.Prelude.{◌≡◌, ◌≤◌, ◌+◌, length, take, drop, IfOk};

use std::alloc::{AllocError, Global};
use std::marker::Model;
use std::sync::Arc;

/// A part of a vector that several owners share, seen as its values.
#[derive(Debug, Drop)]
pub(crate) struct Part<T> {
    all: Arc<Vec<T>>,
    from: usize,
    len: usize,
}

impl<T> Model for Part<T> {
    ghost use Rattle.std.specs.Prelude.{◌≤◌, ◌+◌, List, length, take, drop};

    ghost Value = { List T };

    ghost view = { λ p. take p.len (drop p.from p.all.value.items) };

    ghost invariant = { λ p. p.from + p.len ≤ length p.all.value.items };
}

impl<T> Part<T> {
    /// All values of a vector.
    pub(crate) fn whole(all: Arc<Vec<T>>) -> Part<T>
        ensures { result ≡ all.value.items }
    {
        let len = all.len();
        Part { all, from: 0, len }
    }

    /// How many values there are.
    pub(crate) fn len(&self) -> usize
        ensures { result ≡ length self.now }
    {
        self.len
    }

    /// The values.
    pub(crate) fn as_slice(&self) -> &[T]
        ensures { result.now ≡ self.now }
    {
        &self.all.as_slice()[self.from..self.from + self.len]
    }

    /// The allocator of the vector.
    pub(crate) fn allocator(&self) -> Global {
        *self.all.allocator()
    }

    /// Keeps so many values, from the front.
    pub(crate) fn truncate(&mut self, count: usize)
        ensures { self.new ≡ take count self.old }
    {
        self.len = self.len.min(count);
    }
}

impl<T: Drop> Part<T> {
    /// So many values from a place on, of the same vector.
    pub(crate) fn slice(&self, from: usize, count: usize) -> Result<Part<T>, AllocError>
        requires { from + count ≤ length self.now }
        ensures { IfOk result (λ part. part ≡ take count (drop from self.now)) }
    {
        Ok(Part {
            all: self.all.clone()?,
            from: self.from + from,
            len: count,
        })
    }
}
