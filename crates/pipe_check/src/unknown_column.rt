//! The first name that a node reads and its input lacks.

ghost use Rattle.std.specs.Prelude.{◌≡◌, ◌∷◌, [], map};
ghost use Rattle.std.specs.List.{flat_map};
ghost use Rattle.std.specs.Option.{option_copied};
ghost use Rattle.pipe_schema.specs.Schema.{first_unknown};
ghost use Rattle.pipe_expr.specs.Formula.{formula_of, named_formula_of};
ghost use Rattle.pipe_expr.specs.Types.{columns_in};
ghost use Rattle.pipe_plan.specs.Node.{node_of};
ghost use Rattle.pipe_plan.specs.Faults.{expr_columns, existing_of, function_names, unknown_scanned, unknown_in, or_else};
ghost use Rattle.pipe_check.specs.Kept.{kept_schema};

use crate::below::{columns_of, columns_of_frame};
use crate::columns::Columns;
use pipe_expr::{Expr, FunctionIR, NamedExpr, RenamePair};
use pipe_frame::DataFrame;
use pipe_plan::IR;
use pipe_schema::{List, Schema, Text};

/// A name, if no column has it.
#[tactic(auto, using(crate::proofs::Unknown::unknown_rules))]
fn unknown<'n>(name: &'n Text, columns: &Columns) -> Option<&'n Text>
    ensures { option_copied result ≡ first_unknown columns.now (name.now ∷ []) }
{
    match columns.field(name) {
        Some(_) => None,
        None => Some(name),
    }
}

/// The first of some names that no column has.
fn unknown_of<'n>(names: &'n [Text], columns: &Columns) -> Option<&'n Text>
    ensures { option_copied result ≡ first_unknown columns.now names.now }
{
    for name in names {
        if let Some(name) = unknown(name, columns) {
            return Some(name);
        }
    }
    None
}

/// The first name of an expression, read left to right, that no column has.
#[tactic(auto, using(crate::proofs::Unknown::unknown_rules))]
fn unknown_in_expr<'n>(expr: &'n Expr, columns: &Columns) -> Option<&'n Text>
    ensures { option_copied result ≡ first_unknown columns.now (columns_in (formula_of expr.now)) }
{
    match expr {
        Expr::Col(name) => unknown(name, columns),
        Expr::Lit { .. } => None,
        Expr::Add(left, right)
        | Expr::Sub(left, right)
        | Expr::Mul(left, right)
        | Expr::Eq(left, right)
        | Expr::NotEq(left, right)
        | Expr::Lt(left, right)
        | Expr::LtEq(left, right)
        | Expr::Gt(left, right)
        | Expr::GtEq(left, right)
        | Expr::And(left, right)
        | Expr::Or(left, right) => match unknown_in_expr(left, columns) {
            Some(name) => Some(name),
            None => unknown_in_expr(right, columns),
        },
        Expr::Not(inner) | Expr::IsNull(inner) | Expr::IsNotNull(inner) => {
            unknown_in_expr(inner, columns)
        }
    }
}

/// The first name of some expressions that no column has.
#[tactic(auto, using(crate::proofs::Unknown::unknown_rules))]
fn unknown_in_exprs<'n>(exprs: &'n [Expr], columns: &Columns) -> Option<&'n Text>
    ensures { let names = flat_map columns_in (map formula_of exprs.now) in
        option_copied result ≡ first_unknown columns.now names }
{
    for expr in exprs {
        if let Some(name) = unknown_in_expr(expr, columns) {
            return Some(name);
        }
    }
    None
}

/// The first name of some named expressions that no column has.
#[tactic(auto, using(crate::proofs::Unknown::unknown_rules))]
fn unknown_in_named<'n>(exprs: &'n [NamedExpr], columns: &Columns) -> Option<&'n Text>
    ensures { let names = flat_map expr_columns (map named_formula_of exprs.now) in
        option_copied result ≡ first_unknown columns.now names }
{
    for expr in exprs {
        if let Some(name) = unknown_in_expr(&expr.expr, columns) {
            return Some(name);
        }
    }
    None
}

/// The first renamed column that isn't there.
fn unknown_in_pairs<'n>(pairs: &'n [RenamePair], columns: &Columns) -> Option<&'n Text>
    ensures { option_copied result ≡ first_unknown columns.now (map existing_of pairs.now) }
{
    for pair in pairs {
        if let Some(name) = unknown(&pair.existing, columns) {
            return Some(name);
        }
    }
    None
}

/// The first column of a function that isn't there.
#[tactic(auto, using(crate::proofs::Unknown::unknown_rules))]
fn unknown_in_function<'n>(function: &'n FunctionIR, columns: &Columns) -> Option<&'n Text>
    ensures { option_copied result ≡ first_unknown columns.now (function_names function.now) }
{
    match function {
        FunctionIR::Unpivot { on, index, .. } => match unknown_of(on.as_slice(), columns) {
            Some(name) => Some(name),
            None => unknown_of(index.as_slice(), columns),
        },
        FunctionIR::Rename { pairs } => unknown_in_pairs(pairs.as_slice(), columns),
    }
}

/// The first name of a scan that its frame lacks.
fn unknown_in_scan<'n>(frame: &Columns, columns: &'n Option<List<Text>>) -> Option<&'n Text>
    ensures { option_copied result ≡ unknown_scanned frame.now columns.now }
{
    match columns {
        Some(names) => unknown_of(names.as_slice(), frame),
        None => None,
    }
}

/// The first name of a join's keys, left ones before right ones, that its side lacks.
fn unknown_in_keys<'n>(
    left: &Columns,
    right: &Columns,
    left_on: &'n [Expr],
    right_on: &'n [Expr],
) -> Option<&'n Text>
    ensures { let left_names = flat_map columns_in (map formula_of left_on.now) in
        let right_names = flat_map columns_in (map formula_of right_on.now) in
        let left_unknown = first_unknown left.now left_names in
        option_copied result ≡ or_else left_unknown (first_unknown right.now right_names) }
{
    match unknown_in_exprs(left_on, left) {
        Some(name) => Some(name),
        None => unknown_in_exprs(right_on, right),
    }
}

/// The first name read in a node, in the order of its members, that its input lacks.
pub(crate) fn unknown_column<'n>(
    frames: &[DataFrame],
    schemas: &[Option<Schema>],
    node: &'n IR,
) -> Option<&'n Text>
    ensures { let kept = kept_schema schemas.now in
        option_copied result ≡ unknown_in frames.now kept (node_of node.now) }
{
    match node {
        IR::DataFrameScan { frame, columns } => {
            unknown_in_scan(&columns_of_frame(frames, *frame), columns)
        }
        IR::Filter { input, predicate } => {
            unknown_in_expr(predicate, &columns_of(schemas, *input))
        }
        IR::SimpleProjection {
            input,
            columns: names,
        }
        | IR::Sort {
            input,
            by: names,
            ..
        } => unknown_of(names.as_slice(), &columns_of(schemas, *input)),
        IR::Select { input, exprs } | IR::HStack { input, exprs } => {
            unknown_in_named(exprs.as_slice(), &columns_of(schemas, *input))
        }
        IR::MapFunction { input, function } => {
            unknown_in_function(function, &columns_of(schemas, *input))
        }
        IR::Union { .. } => None,
        IR::Join {
            left,
            right,
            left_on,
            right_on,
            ..
        } => unknown_in_keys(
            &columns_of(schemas, *left),
            &columns_of(schemas, *right),
            left_on.as_slice(),
            right_on.as_slice(),
        ),
    }
}
