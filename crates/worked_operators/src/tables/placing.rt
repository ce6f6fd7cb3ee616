//! Where the rows of keys stand in a build.

ghost use Rattle.std.specs.Prelude.{◌≡◌, ◌≤◌, length, IfOk};
ghost use Rattle.pipe_table.specs.Spec.{IsSpec, built_schema};
ghost use Rattle.worked_operators.specs.Sides.{AreSides};

use crate::sides::Sides;
use crate::tables::joining::built_and_probed;
use pipe_frame::{DataChunk, DataFrame};
use pipe_ops::Sink;
use pipe_rows::{Fnv, RowsEncoded};
use pipe_schema::TryClone;
use pipe_table::{GenericBuild, JoinSpec, RowPos, encode_keys};
use std::alloc::{AllocError, Global};
use std::sync::Arc;

/// More rows than a case has.
const MOST_ROWS: usize = 1000;

/// A build of a frame's rows, with those of another build, of the other frame.
fn build_of_two(
    alloc: Global,
    spec: Arc<JoinSpec>,
    first: DataFrame,
    second: DataFrame,
) -> Result<GenericBuild<Fnv>, AllocError>
    requires good { IsSpec spec.value }
    requires first { first.schema ≡ built_schema spec.value }
    requires second { second.schema ≡ built_schema spec.value }
    requires few { length first.rows ≤ 1000 }
    requires others { length second.rows ≤ 1000 }
{
    let mut build = GenericBuild::new(alloc, spec, 0, 2, Fnv)?;
    let mut other = build.split(alloc, 1)?;
    build.add_chunk(alloc, DataChunk::new(0, first))?;
    other.add_chunk(alloc, DataChunk::new(1, second))?;
    build.combine(alloc, other)?;
    Ok(build)
}

/// The first two rows of a frame where it is cut and has as many, and else all.
fn first_part(frame: &DataFrame, cut: bool) -> Result<DataFrame, AllocError>
    ensures schema { IfOk result (λ part. part.schema ≡ frame.now.schema) }
    ensures few { IfOk result (λ part. length part.rows ≤ length frame.now.rows) }
{
    if cut && frame.height() >= 2 {
        let part = frame.slice(0, 2)?;
        return Ok(part);
    }
    frame.try_clone()
}

/// The rows behind the first two where it is cut and has as many, and else all.
fn second_part(frame: &DataFrame, cut: bool) -> Result<DataFrame, AllocError>
    ensures schema { IfOk result (λ part. part.schema ≡ frame.now.schema) }
    ensures few { IfOk result (λ part. length part.rows ≤ length frame.now.rows) }
{
    let height = frame.height();
    if cut && height >= 2 {
        let part = frame.slice(2, height - 2)?;
        return Ok(part);
    }
    frame.try_clone()
}

/// The places of one key's rows.
fn places_text(alloc: Global, places: &[RowPos]) -> Result<String, AllocError> {
    let mut text = String::new(alloc);
    let mut before = "";
    for place in places {
        text.push_str(before)?;
        text.push_str(format!(in alloc; "({} {})", place.chunk, place.row)?.as_str())?;
        before = " ";
    }
    Ok(text)
}

/// The places of some keys' rows, key by key.
fn all_places_text(
    alloc: Global,
    build: &GenericBuild<Fnv>,
    keys: &RowsEncoded,
) -> Result<String, AllocError> {
    let mut text = String::new(alloc);
    let mut before = "";
    for row in 0..keys.len() {
        text.push_str(before)?;
        let places = build.positions_of(alloc, keys.row(row))?;
        if places.is_empty() {
            text.push_str("none")?;
        } else {
            text.push_str(places_text(alloc, places.as_slice())?.as_str())?;
        }
        before = "; ";
    }
    Ok(text)
}

/// The places of the rows of each row's key of the built side, in two builds put together: one of its first two rows
/// and one of the others where it is cut, and else two of all.
pub(crate) fn places_of_keys(alloc: Global, sides: Sides, cut: bool) -> Result<String, AllocError>
    requires { AreSides sides }
{
    let Sides { spec, left, right } = sides;
    let (built, _) = built_and_probed(spec.swapped, left, right);
    if built.height() > MOST_ROWS {
        return String::from_str(alloc, "too many rows");
    }
    let chunk = DataChunk::new(0, built.try_clone()?);
    let keys = encode_keys(alloc, spec.built_keys(), &chunk)?;
    let first = first_part(&built, cut)?;
    let second = second_part(&built, cut)?;
    let build = build_of_two(alloc, Arc::new(alloc, spec)?, first, second)?;
    all_places_text(alloc, &build, &keys)
}
