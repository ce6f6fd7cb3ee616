//! What is told of a join with bad keys.

use crate::node_words::push_kind;
use pipe_check::plain_names;
use pipe_expr::{Expr, JoinType};
use pipe_plan::{Arena, IR, JoinOptions};
use pipe_schema::first_repeated;
use pipe_why_text::{push_count, push_name};
use std::alloc::{AllocError, Global};
use std::fmt::Write;

/// Appends how many keys stand on each side.
fn push_counts(out: &mut String, left: usize, right: usize) -> Result<(), AllocError> {
    out.push_str("found: ")?;
    push_count(out, left, "key")?;
    out.push_str(" in left_on and ")?;
    push_count(out, right, "key")?;
    out.push_str(" in right_on\n")
}

/// Appends what is wrong with the counts of keys, if anything is.
fn push_bad_counts(
    out: &mut String,
    how: JoinType,
    left: usize,
    right: usize,
) -> Result<bool, AllocError> {
    if how == JoinType::Cross {
        if left == 0 && right == 0 {
            return Ok(false);
        }
        out.push_str(
            ": a cross join pairs all rows and has no key\nexpected: left_on and right_on: []\n",
        )?;
        push_counts(out, left, right)?;
        out.push_str("hint: \"how\":\"inner\" pairs the rows whose keys are equal\n")?;
        return Ok(true);
    }
    if left == 0 && right == 0 {
        out.push_str(": it has no key\nexpected: left_on and right_on: one key or more\n")?;
        push_counts(out, left, right)?;
        out.push_str("hint: \"how\":\"cross\" pairs all rows without a key\n")?;
        return Ok(true);
    }
    if left == right {
        return Ok(false);
    }
    out.push_str(
        ": its sides have unequal counts of keys\nexpected: as many keys in right_on as in left_on, one or more\n",
    )?;
    push_counts(out, left, right)?;
    Ok(true)
}

/// Appends that a key isn't a plain column, or stands twice, if that is so.
fn push_unplain(
    alloc: Global,
    out: &mut String,
    which: &str,
    keys: &[Expr],
) -> Result<bool, AllocError> {
    for (i, key) in keys.iter().enumerate() {
        let is_plain = match key {
            Expr::Col(_) => true,
            _ => false,
        };
        if !is_plain {
            write!(
                out,
                ": {which}[{i}] isn't a plain column\nexpected: keys as {{\"col\":\"k\"}}, since the join keeps one column of each pair\n"
            )?;
            return Ok(true);
        }
    }
    let names = plain_names(alloc, keys)?;
    match first_repeated(alloc, names.as_slice())? {
        Some(name) => {
            write!(out, ": {which} has the column ")?;
            push_name(out, name)?;
            out.push_str(
                " twice\nexpected: each key column once, since the join keeps one column of each pair\n",
            )?;
            Ok(true)
        }
        None => Ok(false),
    }
}

/// Appends what is wrong with the keys of a join.
fn push_keys(
    alloc: Global,
    out: &mut String,
    left_on: &[Expr],
    right_on: &[Expr],
    options: &JoinOptions,
) -> Result<(), AllocError> {
    if push_bad_counts(out, options.how, left_on.len(), right_on.len())? {
        return Ok(());
    }
    if push_unplain(alloc, out, "left_on", left_on)?
        || push_unplain(alloc, out, "right_on", right_on)?
    {
        return out.push_str(
            "hint: \"coalesce\":\"KeepColumns\" keeps the key columns of both sides and takes any keys; an HStack before it makes a plain column of an expression\n",
        );
    }
    out.push_str("\n")
}

/// Appends what is told of a join with bad keys.
pub(crate) fn push_bad_join(
    alloc: Global,
    out: &mut String,
    arena: &Arena,
    n: u32,
) -> Result<(), AllocError> {
    push_kind(out, arena, n)?;
    match arena.nodes.as_slice().get(n as usize) {
        Some(
            IR::Join {
                left_on,
                right_on,
                options,
                ..
            },
        ) => push_keys(alloc, out, left_on.as_slice(), right_on.as_slice(), options),
        _ => out.push_str("\n"),
    }
}
