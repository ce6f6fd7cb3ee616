//! Keys, each once, and numbers.

ghost use Rattle.std.specs.Prelude.{◌≡◌, [], ◌∷◌, OnOk};
ghost use Rattle.std.specs.List.{list_any};
ghost use Rattle.pipe_schema.specs.Rows.{eq_row};
ghost use Rattle.pipe_events.specs.Decided.{stands_in};
ghost use Rattle.pipe_world.specs.Changes.{AreAdded};

use pipe_frame::Row;
use pipe_pairs::is_same_row;
use pipe_schema::{List, TryClone};
use std::alloc::AllocError;

/// Whether a row is among some.
pub fn is_row_among(row: &Row, rows: &[Row]) -> bool
    ensures { result ≡ list_any (eq_row row.now) rows.now }
{
    for other in rows {
        if is_same_row(row.as_slice(), other.as_slice()) {
            return true;
        }
    }
    false
}

/// Whether a number is among some.
pub fn is_among(numbers: &[u64], n: u64) -> bool
    ensures { result ≡ stands_in numbers.now n }
{
    for number in numbers {
        if *number == n {
            return true;
        }
    }
    false
}

/// Adds a key, if it isn't there yet.
#[tactic(auto, using(crate::proofs::KeyLemmas::key_rules))]
fn push_key(flagged: &mut List<Row>, key: &Row) -> Result<(), AllocError>
    ensures { OnOk result (AreAdded (key.now ∷ []) flagged.old flagged.new) }
{
    if is_row_among(key, flagged.as_slice()) {
        return Ok(());
    }
    flagged.push(key.try_clone()?)?;
    Ok(())
}

/// Adds the keys that aren't there yet.
pub(crate) fn push_keys(flagged: &mut List<Row>, keys: &[Row]) -> Result<(), AllocError>
    ensures { OnOk result (AreAdded keys.now flagged.old flagged.new) }
{
    for key in keys {
        push_key(flagged, key)?;
    }
    Ok(())
}
