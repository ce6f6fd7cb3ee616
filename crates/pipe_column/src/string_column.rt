//! Columns of texts: columns of byte strings, each of which is UTF-8.

ghost use Rattle.std.specs.Prelude.{◌≡◌, ℕ, ◌<◌, ◌≤◌, ◌+◌, [], ◌∷◌, ◌++◌, length, IfOk, OnOk, OnErr, map, take, drop, sum_by, ◌^◌};
ghost use Rattle.std.specs.Option.{option_copied};
ghost use Rattle.pipe_column.specs.Column.{nullable_at, nullables_in};
ghost use Rattle.pipe_column.specs.Sizes.{nullable_length};

use crate::bytes_column::BinaryColumn;
use crate::place::Place;
use std::alloc::{AllocError, Global};
use std::marker::Model;

/// A column of texts, seen as a list of the bytes of nullable texts.
#[derive(Debug, Drop)]
pub struct StringColumn {
    inner: BinaryColumn,
}

impl Model for StringColumn {
    ghost use Rattle.std.specs.Prelude.{ℕ, List, Option};
    ghost use Rattle.pipe_column.specs.Column.{AreTexts};

    ghost Value = { List (Option (List ℕ)) };

    ghost view = { λ c. c.inner };

    ghost invariant = { λ c. AreTexts c.inner };
}

#[tactic(auto, using(crate::proofs::Texts::texts_rules))]
impl StringColumn {
    /// A column with no place, which takes no memory.
    pub fn new(alloc: Global) -> StringColumn
        ensures { result ≡ [] }
    {
        StringColumn {
            inner: BinaryColumn::new(alloc),
        }
    }

    /// A column with no place, and room for so many but for their bytes.
    pub fn with_capacity(alloc: Global, places: usize) -> Result<StringColumn, AllocError>
        ensures { IfOk result (λ made. made ≡ []) }
    {
        Ok(StringColumn {
            inner: BinaryColumn::with_capacity(alloc, places)?,
        })
    }

    /// The allocator of the column.
    pub(crate) fn allocator(&self) -> Global {
        self.inner.allocator()
    }

    /// How many places there are.
    pub fn len(&self) -> usize
        ensures { result ≡ length self.now }
    {
        self.inner.len()
    }

    /// The text at a place, or none where it is missing.
    pub fn get(&self, i: usize) -> Option<&str>
        requires { i < length self.now }
        ensures { option_copied result ≡ nullable_at self.now i }
    {
        match self.inner.get(i) {
            // Each byte string of the column is UTF-8, as its invariant says.
            Some(bytes) => Some(unsafe { str::from_utf8_unchecked(bytes) }),
            None => None,
        }
    }

    /// Puts a text at the end, or a missing value.
    pub fn push(&mut self, text: Option<&str>) -> Result<(), AllocError>
        ensures ok { OnOk result (self.new ≡ self.old ++ option_copied text.entry ∷ []) }
        ensures err { OnErr result (self.new ≡ self.old) }
    {
        match text {
            Some(text) => self.inner.push(Some(text.as_bytes())),
            None => self.inner.push(None),
        }
    }

    /// The texts at these places.
    pub(crate) fn take_at<P: Place>(
        &self,
        alloc: Global,
        places: &[P],
    ) -> Result<StringColumn, AllocError>
        ensures { IfOk result (λ taken. taken ≡ nullables_in self.now (map P.place places.now)) }
    {
        Ok(StringColumn {
            inner: self.inner.take_at(alloc, places)?,
        })
    }

    /// So many places from a place on.
    pub(crate) fn slice(&self, from: usize, count: usize) -> Result<StringColumn, AllocError>
        requires { from + count ≤ length self.now }
        ensures { IfOk result (λ part. part ≡ take count (drop from self.now)) }
    {
        Ok(StringColumn {
            inner: self.inner.slice(from, count)?,
        })
    }

    /// Puts the places of another column at the end.
    pub(crate) fn append(&mut self, other: &StringColumn) -> Result<(), AllocError>
        ensures ok { OnOk result (self.new ≡ self.old ++ other.now) }
        ensures err { OnErr result (self.new ≡ self.old) }
    {
        self.inner.append(&other.inner)
    }

    /// Lets copies and parts of the column share its memory from now on.
    pub(crate) fn share(&mut self) -> Result<(), AllocError>
        ensures { self.new ≡ self.old }
    {
        self.inner.share()
    }

    /// Keeps so many places, from the front.
    pub(crate) fn truncate(&mut self, count: usize)
        ensures { self.new ≡ take count self.old }
    {
        self.inner.truncate(count);
    }

    /// A copy.
    pub(crate) fn copied(&self) -> Result<StringColumn, AllocError>
        ensures { IfOk result (λ copy. copy ≡ self.now) }
    {
        Ok(StringColumn {
            inner: self.inner.copied()?,
        })
    }

    /// How many bytes there are in all.
    pub(crate) fn total_len(&self) -> u64
        requires { sum_by nullable_length self.now < 2 ^ 64 }
        ensures { result ≡ sum_by nullable_length self.now }
    {
        self.inner.total_len()
    }
}
