//! Columns of byte strings, each in one buffer of bytes with its validity beside it.

ghost use Rattle.std.specs.Prelude.{◌≡◌, ℕ, ◌<◌, ◌≤◌, ◌+◌, [], ◌∷◌, ◌++◌, length, IfOk, OnOk, OnErr, Some, None, map, take, drop, sum_by, ◌^◌, if◌then◌else◌};
ghost use Rattle.std.specs.Option.{option_copied};
ghost use Rattle.pipe_column.specs.Column.{nullable, nullable_at, nullables_in};
ghost use Rattle.pipe_column.specs.Sizes.{nullable_length};

use crate::bytes_list::BytesList;
use crate::piece_buffer::PieceBuffer;
use crate::place::Place;
use crate::validity::Validity;
use std::alloc::{AllocError, Global};
use std::marker::Model;

/// A column of byte strings, seen as a list of nullable byte strings. Where one is missing an empty one stands.
#[derive(Debug, Drop)]
pub struct BinaryColumn {
    validity: Validity,
    pieces: PieceBuffer,
}

impl Model for BinaryColumn {
    ghost use Rattle.std.specs.Prelude.{◌≡◌, ℕ, List, Option, length};
    ghost use Rattle.pipe_column.specs.Column.{nullables};

    ghost Value = { List (Option (List ℕ)) };

    ghost view = { λ c. nullables c.validity c.pieces };

    ghost invariant = { λ c. length c.validity ≡ length c.pieces };
}

#[tactic(auto, using(crate::proofs::Nullables::nullable_rules))]
impl BinaryColumn {
    /// A column with no place, which takes no memory.
    pub fn new(alloc: Global) -> BinaryColumn
        ensures { result ≡ [] }
    {
        BinaryColumn {
            validity: Validity::new(alloc),
            pieces: PieceBuffer::new(alloc),
        }
    }

    /// A column with no place, and room for so many but for their bytes.
    pub fn with_capacity(alloc: Global, places: usize) -> Result<BinaryColumn, AllocError>
        ensures { IfOk result (λ made. made ≡ []) }
    {
        Ok(BinaryColumn {
            validity: Validity::new(alloc),
            pieces: PieceBuffer::from_list(BytesList::with_room(alloc, places)?),
        })
    }

    /// The allocator of the column.
    pub(crate) fn allocator(&self) -> Global {
        self.pieces.allocator()
    }

    /// How many places there are.
    pub fn len(&self) -> usize
        ensures { result ≡ length self.now }
    {
        self.pieces.len()
    }

    /// Whether the bytes at a place are there, and the bytes.
    fn nullable(&self, i: usize) -> (bool, &[u8])
        requires { i < length self.now }
        ensures { nullable_at self.now i ≡ nullable result.0 result.1.now }
    {
        (self.validity.at(i), self.pieces.get(i))
    }

    /// The bytes at a place, or none where they are missing.
    pub fn get(&self, i: usize) -> Option<&[u8]>
        requires { i < length self.now }
        ensures { option_copied result ≡ nullable_at self.now i }
    {
        let (valid, bytes) = self.nullable(i);
        if valid { Some(bytes) } else { None }
    }

    /// Puts bytes at the end, which are missing where they aren't valid.
    fn put(&mut self, valid: bool, bytes: &[u8]) -> Result<(), AllocError>
        ensures ok { OnOk result (self.new ≡ self.old ++ nullable valid bytes.now ∷ []) }
        ensures err { OnErr result (self.new ≡ self.old) }
    {
        self.validity.push(valid)?;
        if let Err(error) = self.pieces.push(bytes) {
            self.validity.truncate(self.pieces.len());
            return Err(error);
        }
        Ok(())
    }

    /// Puts bytes at the end, or a missing value.
    pub fn push(&mut self, bytes: Option<&[u8]>) -> Result<(), AllocError>
        ensures ok { OnOk result (self.new ≡ self.old ++ option_copied bytes.entry ∷ []) }
        ensures err { OnErr result (self.new ≡ self.old) }
    {
        match bytes {
            Some(bytes) => self.put(true, bytes),
            None => self.put(false, &[]),
        }
    }
}

#[tactic(auto, using(crate::proofs::Nullables::nullable_rules))]
impl BinaryColumn {
    /// The byte strings at these places.
    pub(crate) fn take_at<P: Place>(
        &self,
        alloc: Global,
        places: &[P],
    ) -> Result<BinaryColumn, AllocError>
        ensures { IfOk result (λ taken. taken ≡ nullables_in self.now (map P.place places.now)) }
    {
        Ok(BinaryColumn {
            validity: self.validity.take_at(alloc, places)?,
            pieces: self.pieces.take_at(alloc, places)?,
        })
    }

    /// So many places from a place on.
    pub(crate) fn slice(&self, from: usize, count: usize) -> Result<BinaryColumn, AllocError>
        requires { from + count ≤ length self.now }
        ensures { IfOk result (λ part. part ≡ take count (drop from self.now)) }
    {
        Ok(BinaryColumn {
            validity: self.validity.slice(from, count)?,
            pieces: self.pieces.slice(from, count)?,
        })
    }

    /// Puts the places of another column at the end.
    pub(crate) fn append(&mut self, other: &BinaryColumn) -> Result<(), AllocError>
        ensures ok { OnOk result (self.new ≡ self.old ++ other.now) }
        ensures err { OnErr result (self.new ≡ self.old) }
    {
        self.validity.append(&other.validity)?;
        if let Err(error) = self.pieces.append(&other.pieces) {
            self.validity.truncate(self.pieces.len());
            return Err(error);
        }
        Ok(())
    }

    /// Lets copies and parts of the column share its memory from now on.
    pub(crate) fn share(&mut self) -> Result<(), AllocError>
        ensures { self.new ≡ self.old }
    {
        self.validity.share()?;
        self.pieces.share()
    }

    /// Keeps so many places, from the front.
    pub(crate) fn truncate(&mut self, count: usize)
        ensures { self.new ≡ take count self.old }
    {
        self.validity.truncate(count);
        self.pieces.truncate(count);
    }

    /// A copy.
    pub(crate) fn copied(&self) -> Result<BinaryColumn, AllocError>
        ensures { IfOk result (λ copy. copy ≡ self.now) }
    {
        Ok(BinaryColumn {
            validity: self.validity.copied()?,
            pieces: self.pieces.copied()?,
        })
    }

    /// How many bytes there are in all.
    pub(crate) fn total_len(&self) -> u64
        requires { sum_by nullable_length self.now < 2 ^ 64 }
        ensures { result ≡ sum_by nullable_length self.now }
    {
        let mut total = 0;
        for i in 0..self.len() {
            if let Some(bytes) = self.get(i) {
                total += bytes.len() as u64;
            }
        }
        total
    }
}
