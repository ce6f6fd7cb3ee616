//! Byte strings of rows: those of one width without where each ends, and others with it.

ghost use Rattle.std.specs.Prelude.{◌≡◌, ◌<◌, ◌++◌, length, slice_index_or, [], OnOk, OnErr};
ghost use Rattle.pipe_column.specs.Column.{EndsFrom, pieces_from};

use crate::even_rows::{EvenRows, are_steps};
use pipe_column::BytesList;
use std::alloc::AllocError;
use std::marker::Model;

/// How byte strings are told.
#[derive(Debug, Drop)]
pub(crate) enum HeldRows {
    Even(EvenRows),
    Ragged(BytesList),
}

/// Byte strings, of one width or told by where each ends; seen as a list.
#[derive(Debug, Drop)]
pub(crate) struct RowBytes {
    held: HeldRows,
}

impl Model for RowBytes {
    ghost use Rattle.std.specs.Prelude.{ℕ, List};
    ghost use Rattle.pipe_rows.specs.RowBytes.{held_rows};

    ghost Value = { List (List ℕ) };

    ghost view = { λ r. held_rows r.held };
}

#[tactic(auto, using(crate::proofs::EvenLemmas::even_rules))]
impl RowBytes {
    /// The byte strings of a list.
    pub(crate) fn of_list(list: BytesList) -> RowBytes
        ensures { result ≡ list }
    {
        RowBytes {
            held: HeldRows::Ragged(list),
        }
    }

    /// Byte strings of one width.
    pub(crate) fn of_even(rows: EvenRows) -> RowBytes
        ensures { result ≡ rows.rows }
    {
        RowBytes {
            held: HeldRows::Even(rows),
        }
    }

    /// The byte strings of a buffer that end at these places: the places are kept only where the widths differ.
    pub(crate) fn from_parts(bytes: Vec<u8>, ends: Vec<usize>) -> RowBytes
        requires { EndsFrom 0 (length bytes.items) ends.items }
        ensures { result ≡ pieces_from 0 bytes.items ends.items }
    {
        let width = ends.first().copied().unwrap_or(0);
        if !are_steps(width, ends.as_slice()) {
            return RowBytes::of_list(BytesList::from_parts(bytes, ends));
        }
        RowBytes {
            held: HeldRows::Even(EvenRows::of_parts(bytes, width, ends.len())),
        }
    }

    /// How many byte strings there are.
    pub(crate) fn len(&self) -> usize
        ensures { result ≡ length self.now }
    {
        match &self.held {
            HeldRows::Even(rows) => rows.len(),
            HeldRows::Ragged(list) => list.len(),
        }
    }

    /// The byte string at a place.
    pub(crate) fn get(&self, i: usize) -> &[u8]
        requires { i < length self.now }
        ensures { result.now ≡ slice_index_or self.now i [] }
    {
        match &self.held {
            HeldRows::Even(rows) => rows.get(i),
            HeldRows::Ragged(list) => list.get(i),
        }
    }

    /// Puts other byte strings at the end.
    pub(crate) fn append(&mut self, other: &RowBytes) -> Result<(), AllocError>
        ensures ok { OnOk result (self.new ≡ self.old ++ other.now) }
        ensures err { OnErr result (self.new ≡ self.old) }
    {
        match &other.held {
            HeldRows::Even(rows) => self.append_even(rows),
            HeldRows::Ragged(list) => self.append_list(list),
        }
    }

    /// Gives back the memory that no byte string takes.
    pub(crate) fn shrink(&mut self)
        ensures { self.new ≡ self.old }
    {
        match &mut self.held {
            HeldRows::Even(rows) => rows.shrink(),
            HeldRows::Ragged(list) => list.shrink(),
        }
    }

    /// Puts byte strings of one width at the end: where there was none, or their width is that of the others, no end
    /// is kept.
    fn append_even(&mut self, others: &EvenRows) -> Result<(), AllocError>
        ensures ok { OnOk result (self.new ≡ self.old ++ others.now.rows) }
        ensures err { OnErr result (self.new ≡ self.old) }
    {
        if self.len() == 0 {
            self.held = HeldRows::Even(others.copied()?);
            return Ok(());
        }
        if let HeldRows::Even(rows) = &mut self.held {
            if rows.width() == others.width() {
                return rows.append(others);
            }
        }
        self.append_list(&others.listed()?)
    }

    /// Puts the byte strings of a list at the end.
    fn append_list(&mut self, others: &BytesList) -> Result<(), AllocError>
        ensures ok { OnOk result (self.new ≡ self.old ++ others.now) }
        ensures err { OnErr result (self.new ≡ self.old) }
    {
        let list = match &mut self.held {
            HeldRows::Ragged(list) => return list.append(others),
            HeldRows::Even(rows) => rows.followed_by(others),
        };
        self.held = HeldRows::Ragged(list?);
        Ok(())
    }
}
