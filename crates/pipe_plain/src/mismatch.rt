//! When a node is mistyped: an expression without a type, a predicate that is no truth value, or types that differ.

ghost use Rattle.std.specs.Prelude.{◌≡◌, [], map, not};
ghost use Rattle.std.specs.List.{list_any};
ghost use Rattle.std.specs.Cmp.Lexicographic.{pointwise};
ghost use Rattle.pipe_schema.specs.Cell.{eq_dtype};
ghost use Rattle.pipe_expr.specs.Formula.{formula_of, named_formula_of};
ghost use Rattle.pipe_plan.specs.Node.{node_of};
ghost use Rattle.pipe_plan.specs.Faults.{has_no_type, is_named_untyped, eq_types, keys_differ, keys_mistyped, eq_field, inputs_differ, on_differ, is_mistyped_function, is_mistyped};
ghost use Rattle.pipe_plain.specs.Differences.{is_other_schema, is_other_type};
ghost use Rattle.pipe_plain.specs.Tables.{at_place};

use crate::node_schemas::fields_at;
use pipe_expr::{Expr, FunctionIR, NamedExpr, column_type, expr_type};
use pipe_plan::IR;
use pipe_schema::{DataType, Field, List, Text};

/// Whether two types are the same.
fn is_same_type(a: DataType, b: DataType) -> bool
    ensures { result ≡ eq_dtype a b }
{
    a == b
}

/// Whether two types are there and the same.
fn are_same_types(a: Option<DataType>, b: Option<DataType>) -> bool
    ensures { result ≡ eq_types a b }
{
    match (a, b) {
        (Some(a), Some(b)) => is_same_type(a, b),
        _ => false,
    }
}

/// Whether an expression has no type.
fn is_untyped(schema: &[Field], expr: &Expr) -> bool
    ensures { result ≡ has_no_type schema.now (formula_of expr.now) }
{
    match expr_type(expr, schema) {
        Some(_) => false,
        None => true,
    }
}

/// Whether one of some expressions has no type.
fn is_any_untyped(schema: &[Field], exprs: &[Expr]) -> bool
    ensures { result ≡ list_any (has_no_type schema.now) (map formula_of exprs.now) }
{
    for expr in exprs {
        if is_untyped(schema, expr) {
            return true;
        }
    }
    false
}

/// Whether one of some named expressions has no type.
fn is_any_named_untyped(schema: &[Field], exprs: &[NamedExpr]) -> bool
    ensures { result ≡ list_any (is_named_untyped schema.now) (map named_formula_of exprs.now) }
{
    for expr in exprs {
        if is_untyped(schema, &expr.expr) {
            return true;
        }
    }
    false
}

/// Whether a key pair, of those that both lists have, differs in type.
fn do_keys_differ(left: &[Field], right: &[Field], left_on: &[Expr], right_on: &[Expr]) -> bool
    ensures { let left_keys = map formula_of left_on.now in
        let right_keys = map formula_of right_on.now in
        result ≡ keys_differ left.now right.now left_keys right_keys }
{
    match (left_on.split_first(), right_on.split_first()) {
        (Some((l, left_on)), Some((r, right_on))) => {
            !are_same_types(expr_type(l, left), expr_type(r, right))
                || do_keys_differ(left, right, left_on, right_on)
        }
        _ => false,
    }
}

/// Whether two schemas are the same.
fn is_same_schema(a: &[Field], b: &[Field]) -> bool
    ensures { result ≡ pointwise eq_field a.now b.now }
{
    match (a.split_first(), b.split_first()) {
        (None, None) => true,
        (Some((x, a)), Some((y, b))) => x.name.is_same(&y.name)
            && is_same_type(x.dtype, y.dtype)
            && is_same_schema(a, b),
        _ => false,
    }
}

/// Whether one of some inputs has another schema.
fn is_any_other(schemas: &[List<Field>], first: &[Field], inputs: &[u32]) -> bool
    ensures { result ≡ list_any (is_other_schema (at_place [] schemas.now) first.now) inputs.now }
{
    for input in inputs {
        if !is_same_schema(first, fields_at(schemas, *input)) {
            return true;
        }
    }
    false
}

/// Whether the inputs of a union differ in schema.
fn do_inputs_differ(schemas: &[List<Field>], inputs: &[u32]) -> bool
    ensures { result ≡ inputs_differ (at_place [] schemas.now) inputs.now }
{
    match inputs.split_first() {
        Some((first, rest)) => is_any_other(schemas, fields_at(schemas, *first), rest),
        None => false,
    }
}

/// Whether one of some columns is of another type than the first of a name.
fn is_any_other_type(schema: &[Field], first: &Text, names: &[Text]) -> bool
    ensures { result ≡ list_any (is_other_type schema.now first.now) names.now }
{
    for name in names {
        if !are_same_types(column_type(first, schema), column_type(name, schema)) {
            return true;
        }
    }
    false
}

/// Whether the columns of an unpivot differ in type.
fn do_columns_differ(schema: &[Field], on: &[Text]) -> bool
    ensures { result ≡ on_differ schema.now on.now }
{
    match on.split_first() {
        Some((first, rest)) => is_any_other_type(schema, first, rest),
        None => false,
    }
}

/// Whether a function's columns are of the wrong types.
fn is_function_mistyped(schema: &[Field], function: &FunctionIR) -> bool
    ensures { result ≡ is_mistyped_function schema.now function.now }
{
    match function {
        FunctionIR::Unpivot { on, .. } => do_columns_differ(schema, on.as_slice()),
        FunctionIR::Rename { .. } => false,
    }
}

/// Whether a join's keys are without a type, or differ in type.
fn are_keys_mistyped(left: &[Field], right: &[Field], left_on: &[Expr], right_on: &[Expr]) -> bool
    ensures { let left_keys = map formula_of left_on.now in
        let right_keys = map formula_of right_on.now in
        result ≡ keys_mistyped left.now right.now left_keys right_keys }
{
    is_any_untyped(left, left_on)
        || is_any_untyped(right, right_on)
        || do_keys_differ(left, right, left_on, right_on)
}

/// Whether a node is mistyped.
pub(crate) fn is_node_mistyped(schemas: &[List<Field>], node: &IR) -> bool
    ensures { result ≡ is_mistyped (at_place [] schemas.now) (node_of node.now) }
{
    match node {
        IR::Filter { input, predicate } => {
            let dtype = expr_type(predicate, fields_at(schemas, *input));
            !are_same_types(dtype, Some(DataType::Boolean))
        }
        IR::Select { input, exprs } | IR::HStack { input, exprs } => {
            is_any_named_untyped(fields_at(schemas, *input), exprs.as_slice())
        }
        IR::MapFunction { input, function } => {
            is_function_mistyped(fields_at(schemas, *input), function)
        }
        IR::Union { inputs } => do_inputs_differ(schemas, inputs.as_slice()),
        IR::Join {
            left,
            right,
            left_on,
            right_on,
            ..
        } => {
            let left = fields_at(schemas, *left);
            let right = fields_at(schemas, *right);
            are_keys_mistyped(left, right, left_on.as_slice(), right_on.as_slice())
        }
        IR::DataFrameScan { .. } => false,
        IR::SimpleProjection { .. } => false,
        IR::Sort { .. } => false,
    }
}
