//! How sorts are written in a plan.

use pipe_plan::{PlanSlice, SortOptions};
use pipe_schema::List;
use std::alloc::{AllocError, Global};

/// The keys of a sort and its options: a flag per key, or one for all keys; a slice is its offset and its length.
#[derive(Clone, Copy)]
pub struct WrittenSort {
    pub by: &'static [&'static str],
    pub descending: &'static [bool],
    pub nulls_last: &'static [bool],
    pub slice: Option<(i64, u64)>,
}

/// The ascending order of the column `k`, nulls first. Each other sort says in what it differs.
pub const BY_K: WrittenSort = WrittenSort {
    by: &["k"],
    descending: &[false],
    nulls_last: &[false],
    slice: None,
};

fn flags(alloc: Global, written: &[bool]) -> Result<List<bool>, AllocError> {
    let mut made = List::new(alloc);
    for flag in written {
        made.push(*flag)?;
    }
    Ok(made)
}

fn plan_slice((offset, len): (i64, u64)) -> PlanSlice {
    PlanSlice { offset, len }
}

impl WrittenSort {
    pub(crate) fn options(self, alloc: Global) -> Result<SortOptions, AllocError> {
        let descending = flags(alloc, self.descending)?;
        let nulls_last = flags(alloc, self.nulls_last)?;
        let slice = match self.slice {
            Some(written) => Some(plan_slice(written)),
            None => None,
        };
        Ok(SortOptions {
            descending,
            nulls_last,
            slice,
        })
    }
}
