//! A part of a frame, unpivoted.

ghost use Rattle.std.specs.Prelude.{◌≡◌, ◌+◌, ◌≤◌, true, IfOk, length};
ghost use Rattle.pipe_frame.specs.Frame.{sliced};
ghost use Rattle.pipe_source.specs.Applied.{applied, Applies, ReadsColumns};
ghost use Rattle.pipe_source.specs.Unpivots.{unpivot_columns};
ghost use Rattle.pipe_source.specs.Turns.{is_unpivot};

use crate::named::{columns_named, named_columns};
use crate::repeated::{repeated_names, repeated_places};
use crate::row_by_row::flattened;
use pipe_column::Series;
use pipe_expr::FunctionIR;
use pipe_frame::DataFrame;
use pipe_ops::frame_of;
use pipe_schema::{Text, TryClone};
use std::alloc::{AllocError, Global};

/// The columns of so many rows of a frame from a row on, unpivoted: for each of the rows and each column of `on`, the
/// cells of the columns of `index`, the column's name and its cell.
fn unpivoted_columns(
    alloc: Global,
    on: &[Text],
    index: &[Text],
    variable: &Text,
    value: &Text,
    frame: &DataFrame,
    from: u32,
    count: u32,
) -> Result<Vec<Series>, AllocError>
    requires reads { ReadsColumns on.now index.now frame.now.schema }
    requires there { from + count ≤ length frame.now.rows }
    requires size { length frame.now.rows ≤ 4294967294 }
    ensures { IfOk result
        (λ v. v.items ≡
        unpivot_columns on.now index.now variable.now value.now frame.now from count) }
{
    let chosen = columns_named(alloc, frame, on)?;
    let places = repeated_places(alloc, from, count, on.len())?;
    let mut columns = named_columns(alloc, frame, index, places.as_slice())?;
    let names = repeated_names(alloc, variable.try_clone()?, on, count as usize)?;
    columns.push(names)?;
    let dtype = chosen[0].dtype();
    let name = value.try_clone()?;
    let (first, rows) = (from as usize, count as usize);
    let values = flattened(alloc, name, dtype, chosen.as_slice(), first, rows)?;
    columns.push(values)?;
    Ok(columns)
}

/// So many rows of a frame from a row on, unpivoted.
pub(crate) fn unpivoted_part(
    alloc: Global,
    function: &FunctionIR,
    frame: &DataFrame,
    from: u32,
    count: u32,
) -> Result<DataFrame, AllocError>
    requires unpivot { is_unpivot function.now ≡ true }
    requires applies { Applies function.now frame.now.schema }
    requires there { from + count ≤ length frame.now.rows }
    requires size { length frame.now.rows ≤ 4294967294 }
    ensures { IfOk result (λ made. made ≡ applied function.now (sliced from count frame.now)) }
{
    match function {
        FunctionIR::Unpivot {
            on,
            index,
            variable,
            value,
        } => {
            let on = on.as_slice();
            let index = index.as_slice();
            let columns = unpivoted_columns(alloc, on, index, variable, value, frame, from, count)?;
            Ok(frame_of(alloc, columns)?)
        }
        FunctionIR::Rename { .. } => unreachable!(),
    }
}
