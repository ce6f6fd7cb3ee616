//! What operators make of rows, one after the other.

ghost use Rattle.std.specs.Prelude.{◌≡◌, [], IfOk};
ghost use Rattle.std.specs.List.{flat_map};
ghost use Rattle.pipe_world.specs.StageValues.{op_value};

use crate::stage::RowOp;
use pipe_frame::Row;
use pipe_plain::{filtered, named_rows, rows_of_function, selected_rows, stacked_rows};
use pipe_schema::{Field, List};
use std::alloc::{AllocError, Global};

/// What an operator makes of rows, in turn.
#[tactic(auto, using(crate::proofs::RowByRow::row_rules))]
pub(crate) fn operated(
    alloc: Global,
    op: RowOp,
    schema: &[Field],
    rows: &[Row],
) -> Result<List<Row>, AllocError>
    ensures { IfOk result (λ made. made ≡ flat_map (op_value schema.now op.entry) rows.now) }
{
    match op {
        RowOp::Filter(predicate) => filtered(alloc, predicate, schema, rows),
        RowOp::Columns(names) => named_rows(alloc, schema, names.as_slice(), rows),
        RowOp::Select(exprs) => selected_rows(alloc, schema, exprs.as_slice(), rows),
        RowOp::HStack(exprs) => stacked_rows(alloc, schema, exprs.as_slice(), rows),
        RowOp::Function(function) => rows_of_function(alloc, function, schema, rows),
    }
}
