//! A list over `Vec`, which a contract sees as the list of its items.

ghost use Rattle.std.specs.Prelude.{◌≡◌, [], ◌∷◌, ◌++◌, length, OnOk, OnErr, IfOk};

use crate::try_clone::TryClone;
use std::alloc::{AllocError, Global};
use std::marker::Model;

/// A list.
#[derive(Debug, Drop)]
pub struct List<T> {
    inner: Vec<T>,
}

impl<T> Model for List<T> {
    ghost use Rattle.std.specs.Prelude.{List as Seq};

    ghost Value = { Seq T };

    ghost view = { λ l. l.inner.items };
}

impl<T> List<T> {
    /// An empty list, which takes no memory.
    pub fn new(alloc: Global) -> List<T>
        ensures { result ≡ [] }
    {
        List {
            inner: Vec::new(alloc),
        }
    }

    /// The allocator of the list.
    pub(crate) fn allocator(&self) -> Global {
        *self.inner.allocator()
    }

    /// How many items there are.
    pub fn len(&self) -> usize
        ensures { result ≡ length self.now }
    {
        self.inner.len()
    }

    /// The items.
    pub fn as_slice(&self) -> &[T]
        ensures { result.now ≡ self.now }
    {
        self.inner.as_slice()
    }

    /// These items, which take no further memory.
    pub fn from_vec(items: Vec<T>) -> List<T>
        ensures { result ≡ items.items }
    {
        List { inner: items }
    }

    /// The items, as a vector.
    pub fn into_vec(self) -> Vec<T>
        ensures { result.items ≡ self }
    {
        let List { inner } = self;
        inner
    }
}

impl<T: Drop> List<T> {
    /// Puts an item at the end.
    pub fn push(&mut self, x: T) -> Result<(), AllocError>
        ensures ok { OnOk result (self.new ≡ self.old ++ x ∷ []) }
        ensures err { OnErr result (self.new ≡ self.old) }
    {
        self.inner.push(x)?;
        Ok(())
    }
}

/// Copies of some items.
pub fn copy_items<T: TryClone>(alloc: Global, items: &[T]) -> Result<Vec<T>, AllocError>
    ensures { IfOk result (λ copies. copies.items ≡ items.now) }
{
    let mut copies = Vec::with_capacity(alloc, items.len())?;
    for item in items {
        copies.push(item.try_clone()?)?;
    }
    Ok(copies)
}

impl<T: TryClone> TryClone for List<T> {
    fn try_clone(&self) -> Result<List<T>, AllocError> {
        let inner = copy_items(self.allocator(), self.inner.as_slice())?;
        Ok(List { inner })
    }
}
