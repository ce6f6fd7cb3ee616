//! What is told of a bad sort.

use crate::node_words::push_kind;
use pipe_plan::{Arena, IR, SortOptions};
use pipe_schema::{Text, first_repeated};
use pipe_why_text::{push_count, push_name};
use std::alloc::{AllocError, Global};
use std::fmt::Write;

/// Appends that flags are neither one nor as many as keys, if that is so.
fn push_flags(
    out: &mut String,
    which: &str,
    flags: usize,
    keys: usize,
) -> Result<bool, AllocError> {
    if flags == 1 || flags == keys {
        return Ok(false);
    }
    write!(
        out,
        ": {which} has another count than by\nexpected: {which}: one flag for all keys, or one for each: "
    )?;
    push_count(out, keys, "flag")?;
    out.push_str("\nfound: ")?;
    push_count(out, flags, "flag")?;
    out.push_str("\n")?;
    Ok(true)
}

/// Appends what is wrong with the keys and the flags of a sort.
fn push_keys(
    alloc: Global,
    out: &mut String,
    by: &[Text],
    options: &SortOptions,
) -> Result<(), AllocError> {
    if by.is_empty() {
        return out.push_str(": it has no key\nexpected: by: one column or more\nfound: []\n");
    }
    if let Some(name) = first_repeated(alloc, by)? {
        out.push_str(": by has the column ")?;
        push_name(out, name)?;
        return out.push_str(" twice\nexpected: by: each column once\n");
    }
    if push_flags(out, "descending", options.descending.len(), by.len())? {
        return Ok(());
    }
    if push_flags(out, "nulls_last", options.nulls_last.len(), by.len())? {
        return Ok(());
    }
    match options.slice {
        Some(slice) => write!(
            out,
            ": slice skips less than no row\nexpected: slice: null, or how many rows are skipped, 0 or more, and how many are kept\nfound: {}\n",
            slice.offset
        ),
        None => out.push_str("\n"),
    }
}

/// Appends what is told of a bad sort.
pub(crate) fn push_bad_sort(
    alloc: Global,
    out: &mut String,
    arena: &Arena,
    n: u32,
) -> Result<(), AllocError> {
    push_kind(out, arena, n)?;
    match arena.nodes.as_slice().get(n as usize) {
        Some(IR::Sort { by, options, .. }) => push_keys(alloc, out, by.as_slice(), options),
        _ => out.push_str("\n"),
    }
}
