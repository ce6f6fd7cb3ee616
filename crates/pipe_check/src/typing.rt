//! The types of expressions, over columns that are found by their names.

ghost use Rattle.std.specs.Prelude.{◌≡◌};
ghost use Rattle.pipe_schema.specs.Cell.{eq_dtype};
ghost use Rattle.pipe_expr.specs.Formula.{formula_of};
ghost use Rattle.pipe_expr.specs.Types.{type_of, type_of_column};
ghost use Rattle.pipe_plan.specs.Faults.{eq_types};

use crate::columns::Columns;
use pipe_expr::{ColumnTypes, Expr, type_over};
use pipe_schema::{DataType, Text};

/// The type of the first column of a name, none where no column has it.
#[tactic(auto, using(crate::proofs::Names::name_rules))]
pub fn column_type(name: &Text, columns: &Columns) -> Option<DataType>
    ensures { result ≡ type_of_column name.now columns.now }
{
    match columns.field(name) {
        Some(field) => Some(field.dtype),
        None => None,
    }
}

/// Whether two types are the same.
pub fn is_same_type(a: DataType, b: DataType) -> bool
    ensures { result ≡ eq_dtype a b }
{
    a == b
}

/// Whether two types are there and the same.
pub fn are_same_types(a: Option<DataType>, b: Option<DataType>) -> bool
    ensures { result ≡ eq_types a b }
{
    match (a, b) {
        (Some(a), Some(b)) => is_same_type(a, b),
        _ => false,
    }
}

impl<'a> ColumnTypes for Columns<'a> {
    ghost fields = { λ columns. columns };

    fn type_of_name(&self, name: &Text) -> Option<DataType> {
        column_type(name, self)
    }
}

/// The type of an expression, none where it has none.
pub fn expr_type(expr: &Expr, columns: &Columns) -> Option<DataType>
    ensures { result ≡ type_of (formula_of expr.now) columns.now }
{
    type_over(expr, columns)
}
