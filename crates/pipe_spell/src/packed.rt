//! Packed arrays: of integers, of whole numbers, or of texts, each of which may be missing.

ghost use Rattle.std.specs.Prelude.{◌≡◌, map, IfOk};
ghost use Rattle.serde_json.specs.Data.{array};
ghost use Rattle.serde_json.specs.View.{items_of};
ghost use Rattle.pipe_value.specs.Columns.{columns_data, integer_data, text_data, whole_data};
ghost use Rattle.pipe_value.specs.View.{view};
ghost use Rattle.pipe_job.specs.Spelling.{list};

use pipe_column::{Column, StringColumn};
use pipe_value::{Columns, Value};
use std::alloc::{AllocError, Global};

/// The array of some columns' items.
fn packed(alloc: Global, columns: Columns) -> Result<Value, AllocError>
    ensures { IfOk result (λ value. view value ≡ array (items_of (columns_data columns))) }
{
    let columns = Box::new(alloc, columns)?;
    Ok(Value::Packed(columns, Vec::new(alloc)))
}

/// The array of some integers.
pub(crate) fn integers_value(alloc: Global, integers: Column<i64>) -> Result<Value, AllocError>
    ensures { IfOk result (λ value. view value ≡ list integer_data integers) }
{
    packed(
        alloc,
        Columns {
            integers,
            wholes: Column::new(alloc),
            texts: StringColumn::new(alloc),
        },
    )
}

/// The array of some whole numbers.
pub(crate) fn wholes_value(alloc: Global, wholes: Column<u64>) -> Result<Value, AllocError>
    ensures { IfOk result (λ value. view value ≡ list whole_data wholes) }
{
    packed(
        alloc,
        Columns {
            integers: Column::new(alloc),
            wholes,
            texts: StringColumn::new(alloc),
        },
    )
}

/// The array of some texts.
pub(crate) fn texts_value(alloc: Global, texts: StringColumn) -> Result<Value, AllocError>
    ensures { IfOk result (λ value. view value ≡ list text_data texts) }
{
    packed(
        alloc,
        Columns {
            integers: Column::new(alloc),
            wholes: Column::new(alloc),
            texts,
        },
    )
}
