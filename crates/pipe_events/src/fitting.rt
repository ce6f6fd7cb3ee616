//! The rows of frames fit their schemas, since columns are typed. Nothing is read of them but their types.

ghost use Rattle.std.specs.Prelude.{◌≡◌};
ghost use Rattle.pipe_events.specs.Fitting.{ColumnFits, TableFits, TablesFit};

use pipe_column::{Native, Series};
use pipe_frame::DataFrame;
use pipe_schema::DataType;

/// A column of values of one width.
fn native_fits<T: Native>(column: &Series)
    requires { column.now.dtype ≡ T.dtype_of }
    ensures { ColumnFits column.now }
{
    let _ = column.as_column::<T>();
}

/// A column of texts.
fn string_fits(column: &Series)
    requires { column.now.dtype ≡ DataType.String }
    ensures { ColumnFits column.now }
{
    let _ = column.as_string();
}

/// A column of byte strings.
fn binary_fits(column: &Series)
    requires { column.now.dtype ≡ DataType.Binary }
    ensures { ColumnFits column.now }
{
    let _ = column.as_binary();
}

/// Each cell of a column is null or of the column's type.
fn column_fits(column: &Series)
    ensures { ColumnFits column.now }
{
    match column.dtype() {
        DataType::Int32 => native_fits::<i32>(column),
        DataType::Int64 => native_fits::<i64>(column),
        DataType::UInt32 => native_fits::<u32>(column),
        DataType::UInt64 => native_fits::<u64>(column),
        DataType::Boolean => native_fits::<bool>(column),
        DataType::String => string_fits(column),
        DataType::Binary => binary_fits(column),
        DataType::Int128 => native_fits::<i128>(column),
    }
}

/// The rows of a frame fit its schema.
fn frame_fits(frame: &DataFrame)
    ensures { TableFits frame.now }
{
    let columns = frame.get_columns();
    for column in columns {
        column_fits(column);
    }
}

/// The rows of each frame fit its schema.
pub fn frames_fit(frames: &[DataFrame])
    ensures { TablesFit frames.now }
{
    for frame in frames {
        frame_fits(frame);
    }
}
