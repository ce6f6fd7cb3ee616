//! The lines of a reconciliation: how many rows are of each class, and the class of each row.

ghost use Rattle.std.specs.Prelude.{◌≡◌, ◌++◌, IfOk, OnOk, decimal};
ghost use Rattle.std.specs.List.{count_by};
ghost use Rattle.pipe_recon.specs.LineTexts.{class_text, side_text, unmatched_text};
ghost use Rattle.pipe_recon.specs.ReconLines.{four_line, is_matched, is_only, recon_lines, row_line, row_lines};

use crate::recon::{Partner, Recon};
use itoa::Buffer;
use std::alloc::{AllocError, Global};

/// The side on which a row stands.
#[derive(Clone, Copy)]
pub(crate) enum Side {
    Left,
    Right,
}

impl Side {
    /// What stands before a row's number.
    fn front(self) -> &'static [u8]
        ensures { result.now ≡ side_text self }
    {
        match self {
            Side::Left => b"[\"left\",",
            Side::Right => b"[\"right\",",
        }
    }

    /// What stands behind the number of a row without a partner.
    fn unmatched(self) -> &'static [u8]
        ensures { result.now ≡ unmatched_text self }
    {
        match self {
            Side::Left => b",\"left_only\",null]\n",
            Side::Right => b",\"right_only\",null]\n",
        }
    }
}

/// How many rows have a partner, and how many have none.
#[derive(Clone, Copy)]
struct ClassCounts {
    matched: usize,
    only: usize,
}

/// How many rows of each class there are.
fn count_classes(classes: &[Partner]) -> ClassCounts
    ensures matched { result.matched ≡ count_by is_matched classes.now }
    ensures only { result.only ≡ count_by is_only classes.now }
{
    let mut matched = 0;
    let mut only = 0;
    for class in classes {
        match class {
            Partner::Matched(_) => matched += 1,
            Partner::Only => only += 1,
        }
    }
    ClassCounts { matched, only }
}

/// Appends a number.
fn push_number(out: &mut Vec<u8>, n: usize) -> Result<(), AllocError>
    ensures { OnOk result (out.new.items ≡ out.old.items ++ decimal n) }
{
    let mut buffer = Buffer::new();
    out.extend_from_slice(buffer.format(n).as_bytes())
}

/// Appends the array of four numbers, and a newline.
#[tactic(auto, using(crate::proofs::Texts::counts_written))]
fn push_counts(out: &mut Vec<u8>, left: ClassCounts, right: ClassCounts) -> Result<(), AllocError>
    ensures { OnOk result (out.new.items ≡ out.old.items
        ++ four_line left.matched left.only right.matched right.only) }
{
    out.extend_from_slice(b"[")?;
    push_number(out, left.matched)?;
    out.extend_from_slice(b",")?;
    push_number(out, left.only)?;
    out.extend_from_slice(b",")?;
    push_number(out, right.matched)?;
    out.extend_from_slice(b",")?;
    push_number(out, right.only)?;
    out.extend_from_slice(b"]\n")
}

/// Appends a row's class and its partner, as they stand behind its number, and a newline.
fn push_class(out: &mut Vec<u8>, side: Side, class: Partner) -> Result<(), AllocError>
    ensures { OnOk result (out.new.items ≡ out.old.items ++ class_text side class) }
{
    match class {
        Partner::Matched(row) => {
            out.extend_from_slice(b",\"matched\",")?;
            push_number(out, row as usize)?;
            out.extend_from_slice(b"]\n")
        }
        Partner::Only => out.extend_from_slice(side.unmatched()),
    }
}

/// Appends the line of a row.
#[tactic(auto, using(crate::proofs::Texts::row_written))]
fn push_row(out: &mut Vec<u8>, side: Side, row: usize, class: Partner) -> Result<(), AllocError>
    ensures { OnOk result (out.new.items ≡ out.old.items ++ row_line side row class) }
{
    out.extend_from_slice(side.front())?;
    push_number(out, row)?;
    push_class(out, side, class)
}

/// Appends the lines of the rows of a side.
fn push_rows(out: &mut Vec<u8>, side: Side, classes: &[Partner]) -> Result<(), AllocError>
    ensures { OnOk result (out.new.items ≡ out.old.items ++ row_lines side 0 classes.now) }
{
    for row in 0..classes.len() {
        push_row(out, side, row, classes[row])?;
    }
    Ok(())
}

/// The lines of a reconciliation.
pub fn recon_lines(alloc: Global, recon: &Recon) -> Result<Vec<u8>, AllocError>
    ensures { IfOk result (λ text. text.items ≡ recon_lines recon.now) }
{
    let left = recon.left.as_slice();
    let right = recon.right.as_slice();
    let mut text = Vec::new(alloc);
    push_counts(&mut text, count_classes(left), count_classes(right))?;
    push_rows(&mut text, Side::Left, left)?;
    push_rows(&mut text, Side::Right, right)?;
    Ok(text)
}
