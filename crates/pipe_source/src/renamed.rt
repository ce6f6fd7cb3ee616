//! Frames under other names.

ghost use Rattle.std.specs.Prelude.{◌≡◌, IfOk, map};
ghost use Rattle.pipe_frame.specs.Frame.{columns_of};
ghost use Rattle.pipe_schema.specs.Schema.{IsSchema};
ghost use Rattle.pipe_expr.specs.Projections.{renamed, renamed_field};
ghost use Rattle.pipe_source.specs.Renamings.{renamed_column, renamed_frame};

use pipe_column::Series;
use pipe_expr::RenamePair;
use pipe_frame::DataFrame;
use pipe_ops::frame_of;
use pipe_schema::{Text, TryClone};
use std::alloc::{AllocError, Global};

/// The name that a column gets: the first that some renaming gives it, else its own.
fn new_name<'a>(pairs: &'a [RenamePair], name: &'a Text) -> &'a Text
    ensures { result.now ≡ renamed pairs.now name.now }
{
    for pair in pairs {
        if pair.existing.is_same(name) {
            return &pair.new_name;
        }
    }
    name
}

/// Columns, each under the name that it gets.
fn renamed_columns(
    alloc: Global,
    pairs: &[RenamePair],
    columns: &[Series],
) -> Result<Vec<Series>, AllocError>
    ensures { IfOk result (λ v. v.items ≡ map (renamed_column pairs.now) columns.now) }
{
    let mut renamed = Vec::with_capacity(alloc, columns.len())?;
    for column in columns {
        let mut copy = column.try_clone()?;
        copy.rename(new_name(pairs, column.name()).try_clone()?);
        renamed.push(copy)?;
    }
    Ok(renamed)
}

/// A frame, each column under the name that it gets.
pub(crate) fn renamed_df(
    alloc: Global,
    pairs: &[RenamePair],
    frame: &DataFrame,
) -> Result<DataFrame, AllocError>
    requires { IsSchema (map (renamed_field pairs.now) frame.now.schema) }
    ensures { IfOk result (λ made. made ≡ renamed_frame pairs.now frame.now) }
{
    let columns = renamed_columns(alloc, pairs, frame.get_columns())?;
    Ok(frame_of(alloc, columns)?)
}
