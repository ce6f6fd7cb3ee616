//! The type of an expression over a schema.

ghost use Rattle.std.specs.Prelude.{◌≡◌, Some, None, IfOk, IfErr};
ghost use Rattle.std.specs.Option.{option_copied};
ghost use Rattle.pipe_schema.specs.Cell.{eq_dtype};
ghost use Rattle.pipe_expr.specs.Formula.{formula_of};
ghost use Rattle.pipe_expr.specs.Types.{type_of as expr_type_of, type_of_column, unknown_column, is_integer, literal_type, arithmetic_type, comparison_type, not_type, logic_type, null_test_type};
ghost use Rattle.pipe_expr.specs.Typing.{IsTold};

use crate::column_types::ColumnTypes;
use crate::error::ExprError;
use crate::expr::Expr;
use pipe_schema::{AnyValue, DataType, Field, Schema, Text};
use std::alloc::Global;

/// Whether two types are the same.
fn is_same_type(a: DataType, b: DataType) -> bool
    ensures { result ≡ eq_dtype a b }
{
    a == b
}

/// The type of the first column of a name, none where no column has it.
pub fn column_type(name: &Text, schema: &[Field]) -> Option<DataType>
    ensures { result ≡ type_of_column name.now schema.now }
{
    for field in schema {
        if field.name.is_same(name) {
            return Some(field.dtype);
        }
    }
    None
}

/// Whether it is one of the integer types.
fn is_integer_type(dtype: DataType) -> bool
    ensures { result ≡ is_integer dtype }
{
    match dtype {
        DataType::Int32
        | DataType::Int64
        | DataType::UInt32
        | DataType::UInt64
        | DataType::Int128 => true,
        DataType::Boolean | DataType::String | DataType::Binary => false,
    }
}

/// The type of a literal, none where its value isn't of its type.
fn literal(dtype: DataType, value: &AnyValue) -> Option<DataType>
    ensures { result ≡ literal_type dtype value.now }
{
    if value.fits(dtype) { Some(dtype) } else { None }
}

/// The type of a sum, a difference or a product.
fn arithmetic(left: Option<DataType>, right: Option<DataType>) -> Option<DataType>
    ensures { result ≡ arithmetic_type left right }
{
    match (left, right) {
        (Some(left), Some(right)) => {
            if is_same_type(left, right) && is_integer_type(left) {
                Some(left)
            } else {
                None
            }
        }
        _ => None,
    }
}

/// The type of a comparison.
fn comparison(left: Option<DataType>, right: Option<DataType>) -> Option<DataType>
    ensures { result ≡ comparison_type left right }
{
    match (left, right) {
        (Some(left), Some(right)) => {
            if is_same_type(left, right) {
                Some(DataType::Boolean)
            } else {
                None
            }
        }
        _ => None,
    }
}

/// The type of a negation.
fn negation(inner: Option<DataType>) -> Option<DataType>
    ensures { result ≡ not_type inner }
{
    match inner {
        Some(inner) => {
            if is_same_type(inner, DataType::Boolean) {
                Some(DataType::Boolean)
            } else {
                None
            }
        }
        None => None,
    }
}

/// The type of `and` and `or`.
fn logic(left: Option<DataType>, right: Option<DataType>) -> Option<DataType>
    ensures { result ≡ logic_type left right }
{
    match (left, right) {
        (Some(left), Some(right)) => {
            if is_same_type(left, DataType::Boolean) && is_same_type(right, DataType::Boolean) {
                Some(DataType::Boolean)
            } else {
                None
            }
        }
        _ => None,
    }
}

/// The type of a test for null.
fn null_test(inner: Option<DataType>) -> Option<DataType>
    ensures { result ≡ null_test_type inner }
{
    match inner {
        Some(_) => Some(DataType::Boolean),
        None => None,
    }
}

/// The type of an expression over columns that are found by their names, none where it has none.
pub fn type_over<C: ColumnTypes>(expr: &Expr, columns: &C) -> Option<DataType>
    ensures { result ≡ expr_type_of (formula_of expr.now) (C.fields columns.now) }
{
    match expr {
        Expr::Col(name) => columns.type_of_name(name),
        Expr::Lit { dtype, value } => literal(*dtype, value),
        Expr::Add(left, right) | Expr::Sub(left, right) | Expr::Mul(left, right) => {
            arithmetic(type_over(left, columns), type_over(right, columns))
        }
        Expr::Eq(left, right)
        | Expr::NotEq(left, right)
        | Expr::Lt(left, right)
        | Expr::LtEq(left, right)
        | Expr::Gt(left, right)
        | Expr::GtEq(left, right) => {
            comparison(type_over(left, columns), type_over(right, columns))
        }
        Expr::And(left, right) | Expr::Or(left, right) => {
            logic(type_over(left, columns), type_over(right, columns))
        }
        Expr::Not(inner) => negation(type_over(inner, columns)),
        Expr::IsNull(inner) | Expr::IsNotNull(inner) => null_test(type_over(inner, columns)),
    }
}

/// Fields, read one behind the other for a name.
#[derive(Drop)]
struct Fields<'a> {
    fields: &'a [Field],
}

impl<'a> ColumnTypes for Fields<'a> {
    ghost fields = { λ f. f.fields.now };

    fn type_of_name(&self, name: &Text) -> Option<DataType> {
        column_type(name, self.fields)
    }
}

/// The type of an expression over some fields, none where it has none.
pub fn expr_type(expr: &Expr, schema: &[Field]) -> Option<DataType>
    ensures { result ≡ expr_type_of (formula_of expr.now) schema.now }
{
    type_over(expr, &Fields { fields: schema })
}

/// The first name of an expression, read left to right, that no field has.
#[tactic(auto, using(crate::proofs::Known::known_rules))]
pub fn unknown_name<'e>(expr: &'e Expr, schema: &[Field]) -> Option<&'e Text>
    ensures { option_copied result ≡ unknown_column schema.now (formula_of expr.now) }
{
    match expr {
        Expr::Col(name) => match column_type(name, schema) {
            Some(_) => None,
            None => Some(name),
        },
        Expr::Lit { .. } => None,
        Expr::Add(left, right)
        | Expr::Sub(left, right)
        | Expr::Mul(left, right)
        | Expr::Eq(left, right)
        | Expr::NotEq(left, right)
        | Expr::Lt(left, right)
        | Expr::LtEq(left, right)
        | Expr::Gt(left, right)
        | Expr::GtEq(left, right)
        | Expr::And(left, right)
        | Expr::Or(left, right) => match unknown_name(left, schema) {
            Some(name) => Some(name),
            None => unknown_name(right, schema),
        },
        Expr::Not(inner) | Expr::IsNull(inner) | Expr::IsNotNull(inner) => {
            unknown_name(inner, schema)
        }
    }
}

/// The type of an expression over a schema. `UnknownColumn` with the first name, read left to right, that no column
/// has; `TypeMismatch` exactly where all names are known and there is no type. Only the copy of a name takes memory.
pub fn type_of(alloc: Global, expr: &Expr, schema: &Schema) -> Result<DataType, ExprError>
    ensures ok { IfOk result (λ t. expr_type_of (formula_of expr.now) schema.now ≡ Some t) }
    ensures err { IfErr result (λ e. IsTold (formula_of expr.now) schema.now e) }
{
    let fields = schema.fields();
    match unknown_name(expr, fields) {
        Some(name) => {
            let name = Text::from_str(alloc, name.as_str())?;
            Err(ExprError::UnknownColumn(name))
        }
        None => match expr_type(expr, fields) {
            Some(dtype) => Ok(dtype),
            None => Err(ExprError::TypeMismatch),
        },
    }
}
