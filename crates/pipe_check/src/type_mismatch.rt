//! When a node's expressions or inputs don't fit in type.

ghost use Rattle.std.specs.Prelude.{◌≡◌, Some, not, map};
ghost use Rattle.std.specs.List.{list_any};
ghost use Rattle.std.specs.Cmp.Lexicographic.{pointwise};
ghost use Rattle.pipe_expr.specs.Formula.{formula_of, named_formula_of};
ghost use Rattle.pipe_expr.specs.Types.{type_of};
ghost use Rattle.pipe_plan.specs.Node.{node_of};
ghost use Rattle.pipe_plan.specs.Faults.{has_no_type, is_named_untyped, eq_types, keys_differ, keys_mistyped, eq_field, inputs_differ, on_differ, is_mistyped_function, is_mistyped};
ghost use Rattle.pipe_check.specs.Kept.{kept_schema};
ghost use Rattle.pipe_check.specs.Differences.{is_other_schema, is_other_type};

use crate::below::columns_of;
use crate::columns::Columns;
use crate::typing::{are_same_types, column_type, expr_type, is_same_type};
use pipe_expr::{Expr, FunctionIR, NamedExpr};
use pipe_plan::IR;
use pipe_schema::{DataType, Field, Schema, Text};

/// Whether an expression has no type.
fn is_untyped(expr: &Expr, columns: &Columns) -> bool
    ensures { result ≡ has_no_type columns.now (formula_of expr.now) }
{
    match expr_type(expr, columns) {
        Some(_) => false,
        None => true,
    }
}

/// Whether one of some expressions has no type.
fn is_any_untyped(exprs: &[Expr], columns: &Columns) -> bool
    ensures { result ≡ list_any (has_no_type columns.now) (map formula_of exprs.now) }
{
    for expr in exprs {
        if is_untyped(expr, columns) {
            return true;
        }
    }
    false
}

/// Whether one of some named expressions has no type.
fn is_any_named_untyped(exprs: &[NamedExpr], columns: &Columns) -> bool
    ensures { let formulas = map named_formula_of exprs.now in
        result ≡ list_any (is_named_untyped columns.now) formulas }
{
    for expr in exprs {
        if is_untyped(&expr.expr, columns) {
            return true;
        }
    }
    false
}

/// Whether a key pair differs in type.
fn does_pair_differ(left_key: &Expr, right_key: &Expr, left: &Columns, right: &Columns) -> bool
    ensures { let left_type = type_of (formula_of left_key.now) left.now in
        let right_type = type_of (formula_of right_key.now) right.now in
        result ≡ not (eq_types left_type right_type) }
{
    !are_same_types(expr_type(left_key, left), expr_type(right_key, right))
}

/// Whether a key pair, of those that both lists have, differs in type.
#[tactic(auto, using(crate::proofs::Pairs::key_rules))]
fn do_keys_differ(left_on: &[Expr], right_on: &[Expr], left: &Columns, right: &Columns) -> bool
    ensures { let left_keys = map formula_of left_on.now in
        let right_keys = map formula_of right_on.now in
        result ≡ keys_differ left.now right.now left_keys right_keys }
{
    for i in 0..left_on.len() {
        if right_on.len() <= i {
            return false;
        }
        if does_pair_differ(&left_on[i], &right_on[i], left, right) {
            return true;
        }
    }
    false
}

/// Whether a join's keys are without a type, or differ in type.
fn are_keys_mistyped(left_on: &[Expr], right_on: &[Expr], left: &Columns, right: &Columns) -> bool
    ensures { let left_keys = map formula_of left_on.now in
        let right_keys = map formula_of right_on.now in
        result ≡ keys_mistyped left.now right.now left_keys right_keys }
{
    is_any_untyped(left_on, left)
        || is_any_untyped(right_on, right)
        || do_keys_differ(left_on, right_on, left, right)
}

/// Whether two fields are the same.
fn is_same_field(a: &Field, b: &Field) -> bool
    ensures { result ≡ eq_field a.now b.now }
{
    a.name.is_same(&b.name) && is_same_type(a.dtype, b.dtype)
}

/// Whether two schemas are the same.
#[tactic(auto, using(crate::proofs::Pairs::pair_rules))]
fn is_same_schema(a: &[Field], b: &[Field]) -> bool
    ensures { result ≡ pointwise eq_field a.now b.now }
{
    if a.len() != b.len() {
        return false;
    }
    for i in 0..a.len() {
        if !is_same_field(&a[i], &b[i]) {
            return false;
        }
    }
    true
}

/// Whether one of some inputs has another schema.
fn is_any_other(schemas: &[Option<Schema>], first: &[Field], inputs: &[u32]) -> bool
    ensures { let kept = kept_schema schemas.now in
        result ≡ list_any (is_other_schema kept first.now) inputs.now }
{
    for input in inputs {
        if !is_same_schema(first, columns_of(schemas, *input).fields()) {
            return true;
        }
    }
    false
}

/// Whether the inputs of a union differ in schema.
fn do_inputs_differ(schemas: &[Option<Schema>], inputs: &[u32]) -> bool
    ensures { result ≡ inputs_differ (kept_schema schemas.now) inputs.now }
{
    match inputs.split_first() {
        Some((first, rest)) => is_any_other(schemas, columns_of(schemas, *first).fields(), rest),
        None => false,
    }
}

/// Whether one of some columns is of another type than the first.
fn is_any_other_type(first: &Text, names: &[Text], columns: &Columns) -> bool
    ensures { result ≡ list_any (is_other_type columns.now first.now) names.now }
{
    for name in names {
        if !are_same_types(column_type(first, columns), column_type(name, columns)) {
            return true;
        }
    }
    false
}

/// Whether the columns of an unpivot differ in type.
fn do_columns_differ(on: &[Text], columns: &Columns) -> bool
    ensures { result ≡ on_differ columns.now on.now }
{
    match on.split_first() {
        Some((first, rest)) => is_any_other_type(first, rest, columns),
        None => false,
    }
}

/// Whether a function's columns are of the wrong types.
fn is_function_mistyped(function: &FunctionIR, columns: &Columns) -> bool
    ensures { result ≡ is_mistyped_function columns.now function.now }
{
    match function {
        FunctionIR::Unpivot { on, .. } => do_columns_differ(on.as_slice(), columns),
        FunctionIR::Rename { .. } => false,
    }
}

/// Whether a predicate isn't a truth value.
fn is_predicate_mistyped(predicate: &Expr, columns: &Columns) -> bool
    ensures { let dtype = type_of (formula_of predicate.now) columns.now in
        result ≡ not (eq_types dtype (Some DataType.Boolean)) }
{
    !are_same_types(expr_type(predicate, columns), Some(DataType::Boolean))
}

/// Whether a node is mistyped.
pub(crate) fn is_node_mistyped(schemas: &[Option<Schema>], node: &IR) -> bool
    ensures { result ≡ is_mistyped (kept_schema schemas.now) (node_of node.now) }
{
    match node {
        IR::Filter { input, predicate } => {
            is_predicate_mistyped(predicate, &columns_of(schemas, *input))
        }
        IR::Select { input, exprs } | IR::HStack { input, exprs } => {
            is_any_named_untyped(exprs.as_slice(), &columns_of(schemas, *input))
        }
        IR::MapFunction { input, function } => {
            is_function_mistyped(function, &columns_of(schemas, *input))
        }
        IR::Union { inputs } => do_inputs_differ(schemas, inputs.as_slice()),
        IR::Join {
            left,
            right,
            left_on,
            right_on,
            ..
        } => are_keys_mistyped(
            left_on.as_slice(),
            right_on.as_slice(),
            &columns_of(schemas, *left),
            &columns_of(schemas, *right),
        ),
        IR::DataFrameScan { .. } | IR::SimpleProjection { .. } | IR::Sort { .. } => false,
    }
}
