//! The lines of frames: the column names, and the cells of each row.

ghost use Rattle.std.specs.Prelude.{◌≡◌, ◌<◌, ◌++◌, length, flat_map, OnOk, IfOk, slice_index_or, []};
ghost use Rattle.pipe_column.specs.Columns.{row_at, AllOfHeight};
ghost use Rattle.pipe_schema.specs.Schema.{names_of};
ghost use Rattle.serde_json.specs.Data.{string};
ghost use Rattle.serde_json.specs.Written.{compact_text};
ghost use Rattle.pipe_job.specs.Spelling.{list, cell_spelling};
ghost use Rattle.pipe_job.specs.Line.{head_line, row_line};

use crate::cell_texts::{push_byte, push_cell, push_comma, push_quoted};
use pipe_column::Series;
use pipe_frame::DataFrame;
use pipe_schema::{Bytes, Field, Schema};
use std::alloc::{AllocError, Global};

/// About how many rows are looked at to tell how long all lines are.
const SAMPLE: usize = 1024;

/// Appends the array of some fields' names.
fn push_names(out: &mut Vec<u8>, fields: &[Field]) -> Result<(), AllocError>
    ensures { OnOk result
        (out.new.items ≡ out.old.items ++ compact_text (list string (names_of fields.now))) }
{
    push_byte(out, b'[')?;
    let mut later = false;
    for field in fields {
        push_comma(out, later)?;
        push_quoted(out, field.name.as_str())?;
        later = true;
    }
    push_byte(out, b']')
}

/// Appends the array of a row's cells.
fn push_cells(
    out: &mut Vec<u8>,
    columns: &[Series],
    height: usize,
    i: usize,
) -> Result<(), AllocError>
    requires inside { i < height }
    requires even { AllOfHeight height columns.now }
    ensures { OnOk result
        (out.new.items ≡
        out.old.items ++ compact_text (list cell_spelling (row_at columns.now i))) }
{
    push_byte(out, b'[')?;
    let mut later = false;
    for column in columns {
        push_comma(out, later)?;
        push_cell(out, column, i)?;
        later = true;
    }
    push_byte(out, b']')
}

/// Appends the line of a row of some columns.
fn push_row(
    out: &mut Vec<u8>,
    columns: &[Series],
    height: usize,
    i: usize,
) -> Result<(), AllocError>
    requires inside { i < height }
    requires even { AllOfHeight height columns.now }
    ensures { OnOk result (out.new.items ≡ out.old.items ++ row_line (row_at columns.now i)) }
{
    push_cells(out, columns, height, i)?;
    push_byte(out, b'\n')
}

/// Appends the line of the column names. After an error, a part of it may stand there.
pub fn push_head_line(out: &mut Vec<u8>, schema: &Schema) -> Result<(), AllocError>
    ensures { OnOk result (out.new.items ≡ out.old.items ++ head_line schema.now) }
{
    push_names(out, schema.fields())?;
    push_byte(out, b'\n')
}

/// About how many bytes the lines of all rows take, told by a sample of rows that stand evenly apart.
fn room_for(alloc: Global, columns: &[Series], height: usize) -> Result<usize, AllocError>
    requires { AllOfHeight height columns.now }
{
    let step = height / SAMPLE + 1;
    let mut sample = Vec::new(alloc);
    for i in (0..height).step_by(step) {
        push_row(&mut sample, columns, height, i)?;
    }
    let room = sample.len().saturating_mul(step);
    // a little more, since other rows may be longer
    Ok(room.saturating_add(room / 32))
}

/// Appends the lines of all rows in order. After an error, a part of them may stand there.
pub fn push_rows(out: &mut Vec<u8>, frame: &DataFrame) -> Result<(), AllocError>
    ensures { OnOk result (out.new.items ≡ out.old.items ++ flat_map row_line frame.now.rows) }
{
    let columns = frame.get_columns();
    let height = frame.height();
    // taken once, since a text that grows by doubling is held twice while it moves
    out.reserve(room_for(*out.allocator(), columns, height)?)?;
    for i in 0..height {
        push_row(out, columns, height, i)?;
    }
    Ok(())
}

/// The line of the column names.
pub fn head_line(alloc: Global, schema: &Schema) -> Result<Bytes, AllocError>
    ensures { IfOk result (λ line. line ≡ head_line schema.now) }
{
    let mut out = Vec::new(alloc);
    push_head_line(&mut out, schema)?;
    Ok(Bytes::from_vec(out))
}

/// The line of the row at a place.
pub fn row_line(alloc: Global, frame: &DataFrame, i: usize) -> Result<Bytes, AllocError>
    requires { i < length frame.now.rows }
    ensures { IfOk result (λ line. line ≡ row_line (slice_index_or frame.now.rows i [])) }
{
    let mut out = Vec::new(alloc);
    push_row(&mut out, frame.get_columns(), frame.height(), i)?;
    Ok(Bytes::from_vec(out))
}
