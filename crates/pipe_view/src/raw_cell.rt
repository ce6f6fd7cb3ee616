//! Cells as they stand in a value, of no type yet.

ghost use Rattle.pipe_view.specs.RawSpelling.{RawCellFits, is_raw_cell, raw_cell_spelling};

use pipe_job::{Misread, Spelled};
use pipe_schema::Text;
use pipe_value::Value;
use std::alloc::Global;

/// A null, a truth value, a whole number or a text.
#[derive(Debug, Drop)]
pub enum RawCell {
    Null,
    Boolean(bool),
    Unsigned(u64),
    Negative(i64),
    String(Text),
}

impl Spelled for RawCell {
    ghost spelling = { raw_cell_spelling };

    ghost fits = { RawCellFits };

    ghost shape = { is_raw_cell };

    fn read(alloc: Global, value: &Value) -> Result<RawCell, Misread> {
        if value.is_null() {
            return Ok(RawCell::Null);
        }
        if let Some(truth) = value.as_bool() {
            return Ok(RawCell::Boolean(truth));
        }
        if let Some(text) = value.as_str() {
            return Ok(RawCell::String(Text::from_str(alloc, text)?));
        }
        if let Some(n) = value.as_u64() {
            return Ok(RawCell::Unsigned(n));
        }
        match value.as_i64() {
            Some(z) if z < 0 => Ok(RawCell::Negative(z)),
            _ => Err(Misread::Other),
        }
    }
}
