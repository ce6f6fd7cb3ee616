//! Encoded rows: a list of byte strings, and one mark a row.

ghost use Rattle.std.specs.Prelude.{◌≡◌, ◌<◌, ◌++◌, length, map, IfOk, OnOk, OnErr};
ghost use Rattle.pipe_rows.specs.Encoded.{unmarked, encoded_at, marked_rows};

use crate::row_bytes::RowBytes;
use pipe_column::BytesList;
use pipe_schema::Bytes;
use std::alloc::{AllocError, Global};
use std::marker::Model;

/// A list of byte strings, each with a mark whether one of its row's cells was null.
#[derive(Debug)]
pub struct RowsEncoded {
    rows: RowBytes,
    marks: Vec<bool>,
}

// By hand, so that a drop stays a call in every caller's proof.
impl Drop for RowsEncoded {
    fn drop(self) {
        let RowsEncoded { rows, marks } = self;
        drop(rows);
        drop(marks);
    }
}

impl Model for RowsEncoded {
    ghost use Rattle.std.specs.Prelude.{◌≡◌, List, length};
    ghost use Rattle.pipe_rows.specs.Encoded.{Encoded, marked_rows};

    ghost Value = { List Encoded };

    ghost view = { λ r. marked_rows r.rows r.marks.items };

    ghost invariant = { λ r. length r.marks.items ≡ length r.rows };
}

#[tactic(auto, using(crate::proofs::EncodedLemmas::marked_rules))]
impl RowsEncoded {
    /// These byte strings, each with its mark.
    pub(crate) fn of_parts(rows: RowBytes, marks: Vec<bool>) -> RowsEncoded
        requires { length marks.items ≡ length rows }
        ensures { result ≡ marked_rows rows marks.items }
    {
        RowsEncoded { rows, marks }
    }

    /// These byte strings, none of them marked.
    pub fn from_rows(alloc: Global, rows: &[Bytes]) -> Result<RowsEncoded, AllocError>
        ensures { IfOk result (λ encoded. encoded ≡ map unmarked rows.now) }
    {
        let mut copies = BytesList::new(alloc);
        for row in rows {
            copies.push(row.as_slice())?;
        }
        let marks = vec![in alloc; false; rows.len()]?;
        Ok(RowsEncoded::of_parts(RowBytes::of_list(copies), marks))
    }

    /// How many rows there are.
    pub fn len(&self) -> usize
        ensures { result ≡ length self.now }
    {
        self.rows.len()
    }

    /// The bytes of a row.
    pub fn row(&self, i: usize) -> &[u8]
        requires { i < length self.now }
        ensures { result.now ≡ (encoded_at self.now i).bytes }
    {
        self.rows.get(i)
    }

    /// Whether a cell of a row was null.
    pub fn has_null(&self, i: usize) -> bool
        requires { i < length self.now }
        ensures { result ≡ (encoded_at self.now i).has_null }
    {
        self.marks[i]
    }

    /// Puts the rows of other encoded rows at the end, with their marks.
    pub fn append(&mut self, other: &RowsEncoded) -> Result<(), AllocError>
        ensures ok { OnOk result (self.new ≡ self.old ++ other.now) }
        ensures err { OnErr result (self.new ≡ self.old) }
    {
        self.marks.reserve(other.marks.len())?;
        self.rows.append(&other.rows)?;
        self.marks.extend_from_slice(other.marks.as_slice())?;
        Ok(())
    }

    /// Gives back the memory that no row takes.
    pub fn shrink(&mut self)
        ensures { self.new ≡ self.old }
    {
        self.rows.shrink();
        self.marks.shrink_to_fit();
    }
}
