//! The value of an expression at a row.

ghost use Rattle.std.specs.Prelude.{◌≡◌, IfOk};
ghost use Rattle.pipe_schema.specs.Schema.{has_name, names_of, place_of};
ghost use Rattle.pipe_expr.specs.Formula.{formula_of};
ghost use Rattle.pipe_expr.specs.Values.{named_cell, truth_of, sum_of, difference_of, product_of, both_of, either_of, opposite_of, is_missing, is_present, value_of};
ghost use Rattle.pipe_pairs.specs.Operands.{operated};

use crate::comparison::Comparison;
use pipe_expr::Expr;
use pipe_schema::{AnyValue, Field, Text, TryClone};
use std::alloc::AllocError;

/// The sum of two numbers of one type, null where a side is null.
fn sum(a: &AnyValue, b: &AnyValue) -> AnyValue
    ensures { result ≡ sum_of a.now b.now }
{
    match (a, b) {
        (AnyValue::Int32(a), AnyValue::Int32(b)) => AnyValue::Int32(a.wrapping_add(*b)),
        (AnyValue::Int64(a), AnyValue::Int64(b)) => AnyValue::Int64(a.wrapping_add(*b)),
        (AnyValue::UInt32(a), AnyValue::UInt32(b)) => AnyValue::UInt32(a.wrapping_add(*b)),
        (AnyValue::UInt64(a), AnyValue::UInt64(b)) => AnyValue::UInt64(a.wrapping_add(*b)),
        (AnyValue::Int128(a), AnyValue::Int128(b)) => AnyValue::Int128(a.wrapping_add(*b)),
        _ => AnyValue::Null,
    }
}

/// The difference of two numbers of one type, null where a side is null.
fn difference(a: &AnyValue, b: &AnyValue) -> AnyValue
    ensures { result ≡ difference_of a.now b.now }
{
    match (a, b) {
        (AnyValue::Int32(a), AnyValue::Int32(b)) => AnyValue::Int32(a.wrapping_sub(*b)),
        (AnyValue::Int64(a), AnyValue::Int64(b)) => AnyValue::Int64(a.wrapping_sub(*b)),
        (AnyValue::UInt32(a), AnyValue::UInt32(b)) => AnyValue::UInt32(a.wrapping_sub(*b)),
        (AnyValue::UInt64(a), AnyValue::UInt64(b)) => AnyValue::UInt64(a.wrapping_sub(*b)),
        (AnyValue::Int128(a), AnyValue::Int128(b)) => AnyValue::Int128(a.wrapping_sub(*b)),
        _ => AnyValue::Null,
    }
}

/// The product of two numbers of one type, null where a side is null.
fn product(a: &AnyValue, b: &AnyValue) -> AnyValue
    ensures { result ≡ product_of a.now b.now }
{
    match (a, b) {
        (AnyValue::Int32(a), AnyValue::Int32(b)) => AnyValue::Int32(a.wrapping_mul(*b)),
        (AnyValue::Int64(a), AnyValue::Int64(b)) => AnyValue::Int64(a.wrapping_mul(*b)),
        (AnyValue::UInt32(a), AnyValue::UInt32(b)) => AnyValue::UInt32(a.wrapping_mul(*b)),
        (AnyValue::UInt64(a), AnyValue::UInt64(b)) => AnyValue::UInt64(a.wrapping_mul(*b)),
        (AnyValue::Int128(a), AnyValue::Int128(b)) => AnyValue::Int128(a.wrapping_mul(*b)),
        _ => AnyValue::Null,
    }
}

/// The truth value of a cell, none where it is null.
fn truth(cell: &AnyValue) -> Option<bool>
    ensures { result ≡ truth_of cell.now }
{
    match cell {
        AnyValue::Boolean(holds) => Some(*holds),
        _ => None,
    }
}

/// False if a side is false, else null if a side is null.
fn both(a: &AnyValue, b: &AnyValue) -> AnyValue
    ensures { result ≡ both_of a.now b.now }
{
    match (truth(a), truth(b)) {
        (Some(false), _) | (_, Some(false)) => AnyValue::Boolean(false),
        (Some(true), Some(true)) => AnyValue::Boolean(true),
        (None, _) | (_, None) => AnyValue::Null,
    }
}

/// True if a side is true, else null if a side is null.
fn either(a: &AnyValue, b: &AnyValue) -> AnyValue
    ensures { result ≡ either_of a.now b.now }
{
    match (truth(a), truth(b)) {
        (Some(true), _) | (_, Some(true)) => AnyValue::Boolean(true),
        (Some(false), Some(false)) => AnyValue::Boolean(false),
        (None, _) | (_, None) => AnyValue::Null,
    }
}

/// The other truth value, null of null.
fn opposite(a: &AnyValue) -> AnyValue
    ensures { result ≡ opposite_of a.now }
{
    match truth(a) {
        Some(holds) => AnyValue::Boolean(!holds),
        None => AnyValue::Null,
    }
}

/// Whether a cell is null.
fn missing(a: &AnyValue) -> AnyValue
    ensures { result ≡ is_missing a.now }
{
    match a {
        AnyValue::Null => AnyValue::Boolean(true),
        _ => AnyValue::Boolean(false),
    }
}

/// Whether a cell isn't null.
fn present(a: &AnyValue) -> AnyValue
    ensures { result ≡ is_present a.now }
{
    match a {
        AnyValue::Null => AnyValue::Boolean(false),
        _ => AnyValue::Boolean(true),
    }
}

/// Where the first field of a name stands.
pub fn place(schema: &[Field], name: &Text) -> Option<usize>
    ensures { result ≡ place_of name.now schema.now }
{
    for (i, field) in schema.iter().enumerate() {
        if field.name.is_same(name) {
            return Some(i);
        }
    }
    None
}

/// Whether a name stands among the names of some fields.
pub fn is_named(fields: &[Field], name: &Text) -> bool
    ensures { result ≡ has_name (names_of fields.now) name.now }
{
    for field in fields {
        if field.name.is_same(name) {
            return true;
        }
    }
    false
}

/// The cell of a row under the first column of a name, null where there is none.
pub fn cell_named(schema: &[Field], row: &[AnyValue], name: &Text) -> Result<AnyValue, AllocError>
    ensures { IfOk result (λ cell. cell ≡ named_cell schema.now row.now name.now) }
{
    match place(schema, name) {
        Some(i) => {
            if i < row.len() {
                row[i].try_clone()
            } else {
                Ok(AnyValue::Null)
            }
        }
        None => Ok(AnyValue::Null),
    }
}

/// What an expression makes of the values of its two operands, null where it hasn't two.
fn of_operands(expr: &Expr, a: &AnyValue, b: &AnyValue) -> AnyValue
    ensures { result ≡ operated (formula_of expr.now) a.now b.now }
{
    match expr {
        Expr::Add(_, _) => sum(a, b),
        Expr::Sub(_, _) => difference(a, b),
        Expr::Mul(_, _) => product(a, b),
        Expr::Eq(_, _) => Comparison::Eq.of(a, b),
        Expr::NotEq(_, _) => Comparison::NotEq.of(a, b),
        Expr::Lt(_, _) => Comparison::Lt.of(a, b),
        Expr::LtEq(_, _) => Comparison::LtEq.of(a, b),
        Expr::Gt(_, _) => Comparison::Gt.of(a, b),
        Expr::GtEq(_, _) => Comparison::GtEq.of(a, b),
        Expr::And(_, _) => both(a, b),
        Expr::Or(_, _) => either(a, b),
        Expr::Col(_) => AnyValue::Null,
        Expr::Lit { .. } => AnyValue::Null,
        Expr::Not(_) | Expr::IsNull(_) | Expr::IsNotNull(_) => AnyValue::Null,
    }
}

/// The value of an expression at a row.
pub fn value_at(expr: &Expr, schema: &[Field], row: &[AnyValue]) -> Result<AnyValue, AllocError>
    ensures { IfOk result (λ cell. cell ≡ value_of (formula_of expr.now) schema.now row.now) }
{
    match expr {
        Expr::Col(name) => cell_named(schema, row, name),
        Expr::Lit { value, .. } => value.try_clone(),
        Expr::Add(left, right)
        | Expr::Sub(left, right)
        | Expr::Mul(left, right)
        | Expr::Eq(left, right)
        | Expr::NotEq(left, right)
        | Expr::Lt(left, right)
        | Expr::LtEq(left, right)
        | Expr::Gt(left, right)
        | Expr::GtEq(left, right)
        | Expr::And(left, right)
        | Expr::Or(left, right) => {
            let a = value_at(left, schema, row)?;
            let b = value_at(right, schema, row)?;
            Ok(of_operands(expr, &a, &b))
        }
        Expr::Not(inner) => Ok(opposite(&value_at(inner, schema, row)?)),
        Expr::IsNull(inner) => Ok(missing(&value_at(inner, schema, row)?)),
        Expr::IsNotNull(inner) => Ok(present(&value_at(inner, schema, row)?)),
    }
}
