//! The names that a node reads, and those that its output would hold twice.

ghost use Rattle.std.specs.Prelude.{◌≡◌, ◌++◌, [], ◌∷◌, map, IfOk, OnOk};
ghost use Rattle.std.specs.List.{flat_map};
ghost use Rattle.std.specs.Option.{option_copied};
ghost use Rattle.pipe_schema.specs.Schema.{has_name, names_of, first_repeated, first_unknown as unknown_among};
ghost use Rattle.pipe_expr.specs.Formula.{formula_of, named_formula_of};
ghost use Rattle.pipe_expr.specs.Types.{columns_in};
ghost use Rattle.pipe_expr.specs.Projections.{expr_name};
ghost use Rattle.pipe_plan.specs.Node.{node_of};
ghost use Rattle.pipe_plan.specs.Schemas.{frame_at, node_schema};
ghost use Rattle.pipe_plan.specs.Faults.{or_else, expr_columns, existing_of, function_names, unknown_scanned, unknown_in, once_named, once_names, duplicate_in, repeats_name};
ghost use Rattle.pipe_plain.specs.Tables.{at_place};

use crate::node_schemas::{fields_at, fields_of_node, frame_fields};
use pipe_expr::{Expr, FunctionIR, NamedExpr, RenamePair};
use pipe_frame::DataFrame;
use pipe_pairs::is_named;
use pipe_plan::IR;
use pipe_schema::{Field, List, Text, TryClone};
use std::alloc::{AllocError, Global};

// ---- names that are read

/// Adds copies of some names.
fn push_names(names: &mut List<Text>, more: &[Text]) -> Result<(), AllocError>
    ensures { OnOk result (names.new ≡ names.old ++ more.now) }
{
    for name in more {
        names.push(name.try_clone()?)?;
    }
    Ok(())
}

/// Some names, and more behind them.
fn joined(names: List<Text>, more: List<Text>) -> Result<List<Text>, AllocError>
    ensures { IfOk result (λ all. all ≡ names ++ more) }
{
    let mut all = names;
    push_names(&mut all, more.as_slice())?;
    Ok(all)
}

/// A list of one name.
fn one_name(alloc: Global, name: &Text) -> Result<List<Text>, AllocError>
    ensures { IfOk result (λ names. names ≡ name.now ∷ []) }
{
    let mut names = List::new(alloc);
    names.push(name.try_clone()?)?;
    Ok(names)
}

/// The columns that an expression names, read left to right.
fn columns(alloc: Global, expr: &Expr) -> Result<List<Text>, AllocError>
    ensures { IfOk result (λ names. names ≡ columns_in (formula_of expr.now)) }
{
    match expr {
        Expr::Col(name) => one_name(alloc, name),
        Expr::Lit { .. } => Ok(List::new(alloc)),
        Expr::Add(left, right)
        | Expr::Sub(left, right)
        | Expr::Mul(left, right)
        | Expr::Eq(left, right)
        | Expr::NotEq(left, right)
        | Expr::Lt(left, right)
        | Expr::LtEq(left, right)
        | Expr::Gt(left, right)
        | Expr::GtEq(left, right)
        | Expr::And(left, right)
        | Expr::Or(left, right) => Ok(joined(columns(alloc, left)?, columns(alloc, right)?)?),
        Expr::Not(inner) | Expr::IsNull(inner) | Expr::IsNotNull(inner) => columns(alloc, inner),
    }
}

/// The columns that some expressions name.
fn columns_of_exprs(alloc: Global, exprs: &[Expr]) -> Result<List<Text>, AllocError>
    ensures { IfOk result (λ names. names ≡ flat_map columns_in (map formula_of exprs.now)) }
{
    let mut names = List::new(alloc);
    for expr in exprs {
        push_names(&mut names, columns(alloc, expr)?.as_slice())?;
    }
    Ok(names)
}

/// The columns that some named expressions name.
fn columns_of_named(alloc: Global, exprs: &[NamedExpr]) -> Result<List<Text>, AllocError>
    ensures { let formulas = map named_formula_of exprs.now in
        IfOk result (λ names. names ≡ flat_map expr_columns formulas) }
{
    let mut names = List::new(alloc);
    for expr in exprs {
        push_names(&mut names, columns(alloc, &expr.expr)?.as_slice())?;
    }
    Ok(names)
}

/// The columns that renamings name.
fn renamed_names(alloc: Global, pairs: &[RenamePair]) -> Result<List<Text>, AllocError>
    ensures { IfOk result (λ names. names ≡ map existing_of pairs.now) }
{
    let mut names = List::new(alloc);
    for pair in pairs {
        names.push(pair.existing.try_clone()?)?;
    }
    Ok(names)
}

/// The columns that a function names.
fn names_of_function(alloc: Global, function: &FunctionIR) -> Result<List<Text>, AllocError>
    ensures { IfOk result (λ names. names ≡ function_names function.now) }
{
    match function {
        FunctionIR::Unpivot { on, index, .. } => {
            let mut names = on.try_clone()?;
            push_names(&mut names, index.as_slice())?;
            Ok(names)
        }
        FunctionIR::Rename { pairs } => Ok(renamed_names(alloc, pairs.as_slice())?),
    }
}

/// The first of some names that no field has.
fn first_missing(schema: &[Field], names: &[Text]) -> Result<Option<Text>, AllocError>
    ensures { IfOk result (λ name. name ≡ unknown_among schema.now names.now) }
{
    for name in names {
        if !is_named(schema, name) {
            return Ok(Some(name.try_clone()?));
        }
    }
    Ok(None)
}

/// The first name of a scan that its frame lacks.
fn missing_scanned(
    schema: &[Field],
    columns: &Option<List<Text>>,
) -> Result<Option<Text>, AllocError>
    ensures { IfOk result (λ name. name ≡ unknown_scanned schema.now columns.now) }
{
    match columns {
        Some(names) => Ok(first_missing(schema, names.as_slice())?),
        None => Ok(None),
    }
}

/// The first name in the keys of a join that its side lacks, left keys first.
fn missing_keys(
    alloc: Global,
    left: &[Field],
    right: &[Field],
    left_on: &[Expr],
    right_on: &[Expr],
) -> Result<Option<Text>, AllocError>
    ensures { let left_names = flat_map columns_in (map formula_of left_on.now) in
        let right_names = flat_map columns_in (map formula_of right_on.now) in
        let in_left = unknown_among left.now left_names in
        IfOk result (λ name. name ≡ or_else in_left (unknown_among right.now right_names)) }
{
    let names = columns_of_exprs(alloc, left_on)?;
    match first_missing(left, names.as_slice())? {
        Some(name) => Ok(Some(name)),
        None => {
            let names = columns_of_exprs(alloc, right_on)?;
            Ok(first_missing(right, names.as_slice())?)
        }
    }
}

/// The first name of some expressions that a schema lacks.
fn missing_named(
    alloc: Global,
    schema: &[Field],
    exprs: &[NamedExpr],
) -> Result<Option<Text>, AllocError>
    ensures { let names = flat_map expr_columns (map named_formula_of exprs.now) in
        IfOk result (λ name. name ≡ unknown_among schema.now names) }
{
    let names = columns_of_named(alloc, exprs)?;
    Ok(first_missing(schema, names.as_slice())?)
}

/// The first name of a predicate that a schema lacks.
fn missing_in_expr(alloc: Global, schema: &[Field], expr: &Expr) -> Result<Option<Text>, AllocError>
    ensures { let names = columns_in (formula_of expr.now) in
        IfOk result (λ name. name ≡ unknown_among schema.now names) }
{
    let names = columns(alloc, expr)?;
    Ok(first_missing(schema, names.as_slice())?)
}

/// The first name of a function that a schema lacks.
fn missing_in_function(
    alloc: Global,
    schema: &[Field],
    function: &FunctionIR,
) -> Result<Option<Text>, AllocError>
    ensures { IfOk result (λ name. name ≡ unknown_among schema.now (function_names function.now)) }
{
    let names = names_of_function(alloc, function)?;
    Ok(first_missing(schema, names.as_slice())?)
}

/// The first name read in a node, in the order of its members, that its input lacks.
pub(crate) fn unknown(
    alloc: Global,
    frames: &[DataFrame],
    schemas: &[List<Field>],
    node: &IR,
) -> Result<Option<Text>, AllocError>
    ensures { let schema = at_place [] schemas.now in
        IfOk result (λ name. name ≡ unknown_in frames.now schema (node_of node.now)) }
{
    match node {
        IR::DataFrameScan { frame, columns } => {
            missing_scanned(frame_fields(frames, *frame), columns)
        }
        IR::Filter { input, predicate } => {
            missing_in_expr(alloc, fields_at(schemas, *input), predicate)
        }
        IR::SimpleProjection { input, columns } => {
            first_missing(fields_at(schemas, *input), columns.as_slice())
        }
        IR::Select { input, exprs } | IR::HStack { input, exprs } => {
            missing_named(alloc, fields_at(schemas, *input), exprs.as_slice())
        }
        IR::MapFunction { input, function } => {
            missing_in_function(alloc, fields_at(schemas, *input), function)
        }
        IR::Union { .. } => Ok(None),
        IR::Join {
            left,
            right,
            left_on,
            right_on,
            ..
        } => {
            let left = fields_at(schemas, *left);
            let right = fields_at(schemas, *right);
            missing_keys(alloc, left, right, left_on.as_slice(), right_on.as_slice())
        }
        IR::Sort { input, by, .. } => first_missing(fields_at(schemas, *input), by.as_slice()),
    }
}

// ---- names that stand twice

/// Whether a name stands among some.
fn is_among_names(names: &[Text], name: &Text) -> bool
    ensures { result ≡ has_name names.now name.now }
{
    for other in names {
        if other.is_same(name) {
            return true;
        }
    }
    false
}

/// The first of some names that stands again further on.
fn repeated_name(names: &[Text]) -> Result<Option<Text>, AllocError>
    ensures { IfOk result (λ name. name ≡ first_repeated names.now) }
{
    match names.split_first() {
        Some((name, rest)) => {
            if is_among_names(rest, name) {
                Ok(Some(name.try_clone()?))
            } else {
                Ok(repeated_name(rest)?)
            }
        }
        None => Ok(None),
    }
}

/// Whether a name stands twice among some.
pub(crate) fn is_name_repeated(names: &[Text]) -> Result<bool, AllocError>
    ensures { IfOk result (λ holds. holds ≡ repeats_name names.now) }
{
    match repeated_name(names)? {
        Some(_) => Ok(true),
        None => Ok(false),
    }
}

/// The names of some fields.
fn field_names(alloc: Global, fields: &[Field]) -> Result<List<Text>, AllocError>
    ensures { IfOk result (λ names. names ≡ names_of fields.now) }
{
    let mut names = List::new(alloc);
    for field in fields {
        names.push(field.name.try_clone()?)?;
    }
    Ok(names)
}

/// The names of some expressions.
fn expr_names(alloc: Global, exprs: &[NamedExpr]) -> Result<List<Text>, AllocError>
    ensures { IfOk result (λ names. names ≡ map expr_name (map named_formula_of exprs.now)) }
{
    let mut names = List::new(alloc);
    for expr in exprs {
        names.push(expr.name.try_clone()?)?;
    }
    Ok(names)
}

/// The names that a function may name but once.
fn function_once(alloc: Global, function: &FunctionIR) -> Result<List<Text>, AllocError>
    ensures { IfOk result (λ names. names ≡ once_named function.now) }
{
    match function {
        FunctionIR::Unpivot { on, .. } => Ok(on.try_clone()?),
        FunctionIR::Rename { pairs } => Ok(renamed_names(alloc, pairs.as_slice())?),
    }
}

/// The names that a node may name but once.
fn once(alloc: Global, node: &IR) -> Result<List<Text>, AllocError>
    ensures { IfOk result (λ names. names ≡ once_names (node_of node.now)) }
{
    match node {
        IR::HStack { exprs, .. } => Ok(expr_names(alloc, exprs.as_slice())?),
        IR::MapFunction { function, .. } => Ok(function_once(alloc, function)?),
        IR::DataFrameScan { .. } => Ok(List::new(alloc)),
        IR::Filter { .. } => Ok(List::new(alloc)),
        IR::SimpleProjection { .. } => Ok(List::new(alloc)),
        IR::Select { .. } => Ok(List::new(alloc)),
        IR::Union { .. } => Ok(List::new(alloc)),
        IR::Join { .. } => Ok(List::new(alloc)),
        IR::Sort { .. } => Ok(List::new(alloc)),
    }
}

/// The first output name that stands twice, else such a name among those that the node may name but once.
pub(crate) fn duplicate(
    alloc: Global,
    frames: &[DataFrame],
    schemas: &[List<Field>],
    node: &IR,
) -> Result<Option<Text>, AllocError>
    ensures { let schema = at_place [] schemas.now in
        IfOk result (λ name. name ≡ duplicate_in frames.now schema (node_of node.now)) }
{
    let fields = fields_of_node(alloc, frames, schemas, node)?;
    let names = field_names(alloc, fields.as_slice())?;
    match repeated_name(names.as_slice())? {
        Some(name) => Ok(Some(name)),
        None => {
            let names = once(alloc, node)?;
            Ok(repeated_name(names.as_slice())?)
        }
    }
}
