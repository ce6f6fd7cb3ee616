//! Whether a reconciliation is that of two tables.

ghost use Rattle.std.specs.Prelude.{◌≡◌, ◌<◌, ◌≤◌, List, ℕ, IfOk, None, Some, false, length, map, slice_index_or, true};
ghost use Rattle.std.specs.List.{position};
ghost use Rattle.std.specs.Option.{option_copied};
ghost use Rattle.pipe_recon.specs.Codes.{partner_among, same_code};
ghost use Rattle.pipe_recon.specs.FirstRows.{row_of_bytes, row_of_code};
ghost use Rattle.pipe_recon.specs.Reconciliation.{partner, reconciliation};
ghost use Rattle.pipe_recon.specs.Refusals.{recon_fault};

use crate::codes::codes_of;
use crate::recon::{Partner, Recon};
use crate::recon_spec::ReconSpec;
use pipe_column::BinaryColumn;
use pipe_frame::DataFrame;
use std::alloc::{AllocError, Global};
use std::collections::BTreeMap;

/// The least row of each code: from the last row to the first, so that the first stays.
fn first_rows(alloc: Global, codes: &BinaryColumn) -> Result<BTreeMap<&[u8], u32>, AllocError>
    requires { length codes.now ≤ 4294967294 }
    ensures { IfOk result (λ rows. (bytes : List ℕ) →
        row_of_bytes rows bytes ≡ position (same_code (Some bytes)) codes.now) }
{
    let mut rows = BTreeMap::new(alloc);
    let mut i = codes.len();
    while i > 0 {
        i -= 1;
        if let Some(bytes) = codes.get(i) {
            rows.insert(bytes, i as u32)?;
        }
    }
    Ok(rows)
}

/// The class of a row of some code, by the least rows of codes.
fn partner_of(rows: &BTreeMap<&[u8], u32>, code: Option<&[u8]>) -> Partner
    ensures { result ≡ partner (row_of_code rows.now (option_copied code.entry)) }
{
    let Some(bytes) = code else {
        return Partner::Only;
    };
    match rows.get(bytes) {
        Some(row) => Partner::Matched(*row),
        None => Partner::Only,
    }
}

/// Whether a row has a class.
fn has_class(partners: &[Partner], row: usize, class: Partner) -> bool
    requires { row < length partners.now }
    ensures yes { result ≡ true → slice_index_or partners.now row Partner.Only ≡ class }
    ensures no { result ≡ false → slice_index_or partners.now row Partner.Only ≡ class → ⊥ }
{
    partners[row] == class
}

/// Whether these are the classes of rows of some codes among the rows of the other side, by their codes.
fn are_partners(
    alloc: Global,
    codes: &BinaryColumn,
    others: &BinaryColumn,
    partners: &[Partner],
) -> Result<bool, AllocError>
    requires { length others.now ≤ 4294967294 }
    ensures yes { IfOk result (λ same. same ≡ true →
        partners.now ≡ map (partner_among others.now) codes.now) }
    ensures no { IfOk result (λ same. same ≡ false →
        partners.now ≡ map (partner_among others.now) codes.now → ⊥) }
{
    let rows = first_rows(alloc, others)?;
    if partners.len() != codes.len() {
        return Ok(false);
    }
    for i in 0..partners.len() {
        if !has_class(partners, i, partner_of(&rows, codes.get(i))) {
            return Ok(false);
        }
    }
    Ok(true)
}

/// Whether a value is the reconciliation of two tables, by an ordered map of encoded keys on each side, and no join.
/// The key is one that `check_spec` doesn't refuse, and a table has at most 4,294,967,294 rows.
pub fn check_recon(
    alloc: Global,
    left: &DataFrame,
    right: &DataFrame,
    spec: &ReconSpec,
    recon: &Recon,
) -> Result<bool, AllocError>
    requires good { recon_fault left.now right.now spec.now.on ≡ None }
    requires few_left { length left.now.rows ≤ 4294967294 }
    requires few_right { length right.now.rows ≤ 4294967294 }
    ensures yes { IfOk result (λ same. same ≡ true →
        recon.now ≡ reconciliation left.now right.now spec.now) }
    ensures no { IfOk result (λ same. same ≡ false →
        recon.now ≡ reconciliation left.now right.now spec.now → ⊥) }
{
    let left_codes = codes_of(alloc, left, spec)?;
    let right_codes = codes_of(alloc, right, spec)?;
    let left_same = are_partners(alloc, &left_codes, &right_codes, recon.left.as_slice())?;
    if !left_same {
        return Ok(false);
    }
    let right_same = are_partners(alloc, &right_codes, &left_codes, recon.right.as_slice())?;
    Ok(right_same)
}
