//! Byte strings of one width, one behind the other in one buffer: where each ends needn't be kept.

ghost use Rattle.std.specs.Prelude.{◌≡◌, ◌<◌, ◌++◌, ◌*◌, length, slice_index_or, [], IfOk, OnOk, OnErr};
ghost use Rattle.pipe_rows.specs.EvenRows.{even_rows, are_steps};

use pipe_column::BytesList;
use std::alloc::{AllocError, Global};
use std::marker::Model;

/// Byte strings of one width, seen as the width and the byte strings.
#[derive(Debug, Drop)]
pub(crate) struct EvenRows {
    bytes: Vec<u8>,
    width: usize,
    count: usize,
}

impl Model for EvenRows {
    ghost use Rattle.std.specs.Prelude.{◌≡◌, ◌*◌, length};
    ghost use Rattle.pipe_rows.specs.EvenRows.{OfWidth, even_rows};

    ghost Value = { OfWidth };

    ghost view = { λ r. record { width = r.width; rows = even_rows r.width r.count r.bytes.items } };

    ghost invariant = { λ r. length r.bytes.items ≡ r.count * r.width };
}

/// Whether each of some ends lies a width behind the one before it.
pub(crate) fn are_steps(width: usize, ends: &[usize]) -> bool
    ensures { result ≡ are_steps width 0 ends.now }
{
    let mut start: usize = 0;
    for end in ends {
        if *end < start || *end - start != width {
            return false;
        }
        start = *end;
    }
    true
}

#[tactic(auto, using(crate::proofs::EvenLemmas::even_rules))]
impl EvenRows {
    /// So many byte strings of a width, which fill a buffer.
    pub(crate) fn of_parts(bytes: Vec<u8>, width: usize, count: usize) -> EvenRows
        requires { length bytes.items ≡ count * width }
        ensures width { result.width ≡ width }
        ensures rows { result.rows ≡ even_rows width count bytes.items }
    {
        EvenRows {
            bytes,
            width,
            count,
        }
    }

    /// The width of each byte string.
    pub(crate) fn width(&self) -> usize
        ensures { result ≡ self.now.width }
    {
        self.width
    }

    /// How many byte strings there are.
    pub(crate) fn len(&self) -> usize
        ensures { result ≡ length self.now.rows }
    {
        self.count
    }

    /// The byte string at a place.
    pub(crate) fn get(&self, i: usize) -> &[u8]
        requires { i < length self.now.rows }
        ensures { result.now ≡ slice_index_or self.now.rows i [] }
    {
        let start = i * self.width;
        &self.bytes[start..start + self.width]
    }

    /// Puts others of the same width at the end.
    pub(crate) fn append(&mut self, other: &EvenRows) -> Result<(), AllocError>
        requires { other.now.width ≡ self.old.width }
        ensures width { self.new.width ≡ self.old.width }
        ensures ok { OnOk result (self.new.rows ≡ self.old.rows ++ other.now.rows) }
        ensures err { OnErr result (self.new.rows ≡ self.old.rows) }
    {
        let Some(count) = self.count.checked_add(other.count) else {
            return Err(AllocError);
        };
        self.bytes.extend_from_slice(other.bytes.as_slice())?;
        self.count = count;
        Ok(())
    }

    /// Gives back the memory that no byte string takes.
    pub(crate) fn shrink(&mut self)
        ensures { self.new ≡ self.old }
    {
        self.bytes.shrink_to_fit();
    }

    /// A copy.
    pub(crate) fn copied(&self) -> Result<EvenRows, AllocError>
        ensures { IfOk result (λ copy. copy ≡ self.now) }
    {
        let alloc = *self.bytes.allocator();
        Ok(EvenRows {
            bytes: Vec::from_slice(alloc, self.bytes.as_slice())?,
            width: self.width,
            count: self.count,
        })
    }

    /// A list of these byte strings and of others behind them.
    pub(crate) fn followed_by(&self, others: &BytesList) -> Result<BytesList, AllocError>
        ensures { IfOk result (λ list. list ≡ self.now.rows ++ others.now) }
    {
        let mut list = self.listed()?;
        list.append(others)?;
        Ok(list)
    }

    /// A list of these byte strings.
    pub(crate) fn listed(&self) -> Result<BytesList, AllocError>
        ensures { IfOk result (λ list. list ≡ self.now.rows) }
    {
        let mut list = BytesList::new(*self.bytes.allocator());
        for i in 0..self.len() {
            list.push(self.get(i))?;
        }
        Ok(list)
    }
}
