//! The least partners, by one pass over pairs of row numbers.

ghost use Rattle.std.specs.Prelude.{◌≡◌, ◌<◌, ℕ, IfOk, length, slice_index_or};
ghost use Rattle.pipe_recon.specs.Least.{AreLeast, class_after, lesser};

use crate::recon::Partner;
use pipe_column::Column;
use std::alloc::{AllocError, Global};

/// The lesser of a row's partner so far and one more.
fn lesser(class: Partner, row: u32) -> Partner
    ensures { result ≡ lesser class row }
{
    match class {
        Partner::Matched(other) => Partner::Matched(other.min(row)),
        Partner::Only => Partner::Matched(row),
    }
}

/// Takes in a row and a partner that stand beside each other, where both are there.
fn take_in(classes: &mut [Partner], row: Option<u32>, partner: Option<u32>)
    ensures long { length classes.new ≡ length classes.old }
    ensures each { (i : ℕ) → i < length classes.old → slice_index_or classes.new i Partner.Only
        ≡ class_after i row partner (slice_index_or classes.old i Partner.Only) }
{
    let Some(row) = row else {
        return;
    };
    let Some(partner) = partner else {
        return;
    };
    let place = row as usize;
    if place < classes.len() {
        classes[place] = lesser(classes[place], partner);
    }
}

/// The class of each of so many rows: the least partner that stands beside it, if one does.
#[tactic(auto, using(crate::proofs::LeastSteps::all_more, crate::proofs::LeastSteps::none_yet))]
pub(crate) fn least_partners(
    alloc: Global,
    height: usize,
    rows: &Column<u32>,
    partners: &Column<u32>,
) -> Result<Vec<Partner>, AllocError>
    requires { length rows.now ≡ length partners.now }
    ensures long { IfOk result (λ classes. length classes.items ≡ height) }
    ensures least { IfOk result (λ classes.
        AreLeast rows.now partners.now (length rows.now) classes.items) }
{
    let mut classes = vec![in alloc; Partner::Only; height]?;
    for i in 0..rows.len() {
        take_in(classes.as_mut_slice(), rows.at(i), partners.at(i));
    }
    Ok(classes)
}
