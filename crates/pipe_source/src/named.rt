//! Columns by their names.

ghost use Rattle.std.specs.Prelude.{◌≡◌, ◌<◌, IfOk, Some, map, length, All};
ghost use Rattle.pipe_schema.specs.Schema.{first_unknown, has_name, names_of};
ghost use Rattle.std.specs.Prelude.{true, None};
ghost use Rattle.pipe_source.specs.Lent.{lent, whole_column};
ghost use Rattle.pipe_source.specs.Unpivots.{column_at};

use pipe_column::Series;
use pipe_frame::DataFrame;
use pipe_schema::Text;
use std::alloc::{AllocError, Global};

/// The column of a name.
fn column_named<'a>(frame: &'a DataFrame, name: &Text) -> &'a Series
    requires { has_name (names_of frame.now.schema) name.now ≡ true }
    ensures { result.now ≡ whole_column frame.now name.now }
{
    let columns = frame.get_columns();
    match frame.schema().index_of(name.as_bytes()) {
        Some(i) => &columns[i],
        None => unreachable!(),
    }
}

/// The columns of these names, in their order.
pub(crate) fn columns_named<'a>(
    alloc: Global,
    frame: &'a DataFrame,
    names: &[Text],
) -> Result<Vec<&'a Series>, AllocError>
    requires { first_unknown frame.now.schema names.now ≡ None }
    ensures { IfOk result (λ v. map lent v.items ≡ map (whole_column frame.now) names.now) }
{
    let mut columns = Vec::with_capacity(alloc, names.len())?;
    for name in names {
        columns.push(column_named(frame, name))?;
    }
    Ok(columns)
}

/// The column of a name, at these rows.
fn named_column(frame: &DataFrame, name: &Text, rows: &[u32]) -> Result<Series, AllocError>
    requires known { has_name (names_of frame.now.schema) name.now ≡ true }
    requires there { All (λ i. i < length frame.now.rows) rows.now }
    ensures { IfOk result (λ column. column ≡ column_at frame.now rows.now name.now) }
{
    Ok(column_named(frame, name).take(rows)?)
}

/// The columns of these names, in their order, at these rows.
pub(crate) fn named_columns(
    alloc: Global,
    frame: &DataFrame,
    names: &[Text],
    rows: &[u32],
) -> Result<Vec<Series>, AllocError>
    requires known { first_unknown frame.now.schema names.now ≡ None }
    requires there { All (λ i. i < length frame.now.rows) rows.now }
    ensures { IfOk result (λ v. v.items ≡ map (column_at frame.now rows.now) names.now) }
{
    let mut columns = Vec::with_capacity(alloc, names.len())?;
    for name in names {
        columns.push(named_column(frame, name, rows)?)?;
    }
    Ok(columns)
}
