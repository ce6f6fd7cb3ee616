//! How rows are to lie in parts.

use pipe_schema::{List, Text, TryClone};
use std::alloc::AllocError;

/// How the rows of a node are wished to lie in parts.
#[derive(Debug, Drop)]
pub enum Wish {
    /// Each row lies in one part, in any way.
    Split,
    /// Each row lies in one part, and rows with equal values in these columns (null equals null) in one and the same,
    /// for all rows that are cut by one key. A key has the number of the join that asks for it.
    Key { key: u32, columns: List<Text> },
    /// Each part has all rows.
    Whole,
}

/// How the frame that one scan reads is cut.
#[derive(Debug, Drop)]
pub struct ScanCut {
    pub scan: u32,
    pub cut: Wish,
}

impl TryClone for Wish {
    fn try_clone(&self) -> Result<Wish, AllocError> {
        match self {
            Wish::Split => Ok(Wish::Split),
            Wish::Key { key, columns } => Ok(Wish::Key {
                key: *key,
                columns: columns.try_clone()?,
            }),
            Wish::Whole => Ok(Wish::Whole),
        }
    }
}

impl TryClone for ScanCut {
    fn try_clone(&self) -> Result<ScanCut, AllocError> {
        Ok(ScanCut {
            scan: self.scan,
            cut: self.cut.try_clone()?,
        })
    }
}
