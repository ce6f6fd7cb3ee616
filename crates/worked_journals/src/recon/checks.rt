//! What the check says of a reconciliation, and of each that differs from it at one row.

ghost use Rattle.std.specs.Prelude.{◌≡◌, ◌≤◌, None, length};
ghost use Rattle.pipe_recon.specs.Refusals.{recon_fault};

use pipe_frame::DataFrame;
use pipe_recon::{Partner, Recon, ReconSpec, check_recon};
use pipe_schema::List;
use std::alloc::{AllocError, Global};

/// Another class.
fn other_class(class: Partner) -> Partner {
    match class {
        Partner::Matched(_) => Partner::Only,
        Partner::Only => Partner::Matched(0),
    }
}

/// Classes, of which the one at a place is another, where there is one.
fn changed_at(
    alloc: Global,
    classes: &[Partner],
    place: usize,
) -> Result<List<Partner>, AllocError> {
    let mut made = Vec::from_slice(alloc, classes)?;
    if place < made.len() {
        made[place] = other_class(made[place]);
    }
    Ok(List::from_vec(made))
}

/// Whether each value that differs at one left row is refused.
fn left_changes_refused(
    alloc: Global,
    left: &DataFrame,
    right: &DataFrame,
    spec: &ReconSpec,
    recon: &Recon,
) -> Result<bool, AllocError>
    requires good { recon_fault left.now right.now spec.now.on ≡ None }
    requires few_left { length left.now.rows ≤ 4294967294 }
    requires few_right { length right.now.rows ≤ 4294967294 }
{
    let (lefts, rights) = (recon.left.as_slice(), recon.right.as_slice());
    for place in 0..lefts.len() {
        let other = Recon {
            left: changed_at(alloc, lefts, place)?,
            right: changed_at(alloc, rights, rights.len())?,
        };
        if check_recon(alloc, left, right, spec, &other)? {
            return Ok(false);
        }
    }
    Ok(true)
}

/// Whether each value that differs at one right row is refused.
fn right_changes_refused(
    alloc: Global,
    left: &DataFrame,
    right: &DataFrame,
    spec: &ReconSpec,
    recon: &Recon,
) -> Result<bool, AllocError>
    requires good { recon_fault left.now right.now spec.now.on ≡ None }
    requires few_left { length left.now.rows ≤ 4294967294 }
    requires few_right { length right.now.rows ≤ 4294967294 }
{
    let (lefts, rights) = (recon.left.as_slice(), recon.right.as_slice());
    for place in 0..rights.len() {
        let other = Recon {
            left: changed_at(alloc, lefts, lefts.len())?,
            right: changed_at(alloc, rights, place)?,
        };
        if check_recon(alloc, left, right, spec, &other)? {
            return Ok(false);
        }
    }
    Ok(true)
}

/// What the check says.
pub(crate) fn check_text(
    alloc: Global,
    left: &DataFrame,
    right: &DataFrame,
    spec: &ReconSpec,
    recon: &Recon,
) -> Result<&'static str, AllocError>
    requires good { recon_fault left.now right.now spec.now.on ≡ None }
    requires few_left { length left.now.rows ≤ 4294967294 }
    requires few_right { length right.now.rows ≤ 4294967294 }
{
    if !check_recon(alloc, left, right, spec, recon)? {
        return Ok("the check refuses it");
    }
    if !left_changes_refused(alloc, left, right, spec, recon)? {
        return Ok("another left class passes");
    }
    if !right_changes_refused(alloc, left, right, spec, recon)? {
        return Ok("another right class passes");
    }
    Ok("the check lets it pass, and no change of one class")
}
