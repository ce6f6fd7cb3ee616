//! Columns and frames written as texts.

use crate::cells::cell_of;
use pipe_column::Series;
use pipe_frame::DataFrame;
use pipe_schema::{DataType, FrameError, Text};
use std::alloc::{AllocError, Global};

/// A column: its name, its type and its cells.
pub type WrittenColumn<'a> = (&'a str, DataType, &'a [&'a str]);

/// The type of most columns of numbers.
pub const INT: DataType = DataType::Int64;

/// The type of columns of text.
pub const TEXT: DataType = DataType::String;

/// The column of a name, a type and some cells.
pub fn series_of(
    alloc: Global,
    name: &str,
    dtype: DataType,
    cells: &[&str],
) -> Result<Series, AllocError> {
    let mut series = Series::new(alloc, Text::from_str(alloc, name)?, dtype);
    for written in cells {
        let cell = cell_of(alloc, dtype, written)?;
        if cell.fits(series.dtype()) {
            series.push(cell)?;
        }
    }
    Ok(series)
}

/// The frame of some columns, none where they make no frame: two of one name, or of unequal lengths.
pub fn frame_of(alloc: Global, columns: &[WrittenColumn]) -> Result<Option<DataFrame>, AllocError> {
    let mut made = Vec::new(alloc);
    for (name, dtype, cells) in columns {
        made.push(series_of(alloc, name, *dtype, cells)?)?;
    }
    match DataFrame::new(alloc, made) {
        Ok(frame) => Ok(Some(frame)),
        Err(FrameError::Memory) => Err(AllocError),
        Err(_) => Ok(None),
    }
}
