//! The columns of a key below a node.

ghost use Rattle.std.specs.Prelude.{◌≡◌, map, IfOk};
ghost use Rattle.std.specs.Option.{option_copied, option_to_list};
ghost use Rattle.pipe_schema.specs.Schema.{has_name, names_of};
ghost use Rattle.pipe_expr.specs.Formula.{formula_of, named_formula_of};
ghost use Rattle.pipe_expr.specs.Projections.{expr_named, renamed};
ghost use Rattle.pipe_plan.specs.Node.{node_of};
ghost use Rattle.pipe_rules.specs.Placing.{column_of, plain_column, old_name};
ghost use Rattle.pipe_parts.specs.Wishes.{name_if, stacked_below, function_below, column_below as name_below, columns_below as names_below, wishes_below};

use crate::wish::Wish;
use pipe_expr::{Expr, FunctionIR, NamedExpr, RenamePair};
use pipe_plan::IR;
use pipe_schema::{List, Schema, Text, TryClone};
use std::alloc::{AllocError, Global};

/// The column that an expression is, if it is one.
fn column(expr: &Expr) -> Option<&Text>
    ensures { option_copied result ≡ column_of (formula_of expr.now) }
{
    match expr {
        Expr::Col(name) => Some(name),
        _ => None,
    }
}

/// The input's column that stands under a name of a projection, if it is a plain column there.
fn plain<'a>(exprs: &'a [NamedExpr], name: &Text) -> Option<&'a Text>
    ensures { option_copied result ≡ plain_column (map named_formula_of exprs.now) name.now }
{
    for named in exprs {
        if named.name.is_same(name) {
            return column(&named.expr);
        }
    }
    None
}

/// The column below an extension's: the input's own where no expression has the name.
fn stacked<'a>(exprs: &'a [NamedExpr], name: &'a Text) -> Option<&'a Text>
    ensures { option_copied result
        ≡ stacked_below name.now (expr_named (map named_formula_of exprs.now) name.now) }
{
    for named in exprs {
        if named.name.is_same(name) {
            return column(&named.expr);
        }
    }
    Some(name)
}

/// A name, if it stands among some names.
fn name_among<'a>(names: &[Text], name: &'a Text) -> Option<&'a Text>
    ensures { option_copied result ≡ name_if (has_name names.now name.now) name.now }
{
    for other in names {
        if other.is_same(name) {
            return Some(name);
        }
    }
    None
}

/// A name, if a field has it.
fn name_in<'a>(input: &Schema, name: &'a Text) -> Option<&'a Text>
    ensures { option_copied result ≡ name_if (has_name (names_of input.now) name.now) name.now }
{
    for field in input.fields() {
        if field.name.is_same(name) {
            return Some(name);
        }
    }
    None
}

/// The name that a column gets: that of the first renaming of it.
fn new_name<'a>(pairs: &'a [RenamePair], name: &'a Text) -> &'a Text
    ensures { result.now ≡ renamed pairs.now name.now }
{
    for pair in pairs {
        if pair.existing.is_same(name) {
            return &pair.new_name;
        }
    }
    name
}

/// The old name of the first field that gets a name.
fn former<'a>(pairs: &[RenamePair], input: &'a Schema, name: &'a Text) -> &'a Text
    ensures { result.now ≡ old_name pairs.now input.now name.now }
{
    for field in input.fields() {
        if new_name(pairs, &field.name).is_same(name) {
            return &field.name;
        }
    }
    name
}

/// The column below a function.
fn through<'a>(input: &'a Schema, function: &'a FunctionIR, name: &'a Text) -> Option<&'a Text>
    ensures { option_copied result ≡ function_below input.now function.now name.now }
{
    match function {
        FunctionIR::Unpivot { index, .. } => name_among(index.as_slice(), name),
        FunctionIR::Rename { pairs } => Some(former(pairs.as_slice(), input, name)),
    }
}

/// The column of a node's first input that stands under a name of the node's output, if a plain column does.
fn column_below<'a>(input: &'a Schema, node: &'a IR, name: &'a Text) -> Option<&'a Text>
    ensures { option_copied result ≡ name_below input.now (node_of node.now) name.now }
{
    match node {
        IR::DataFrameScan { .. } => None,
        IR::Filter { .. } => Some(name),
        IR::SimpleProjection { .. } => Some(name),
        IR::Select { exprs, .. } => plain(exprs.as_slice(), name),
        IR::HStack { exprs, .. } => stacked(exprs.as_slice(), name),
        IR::MapFunction { function, .. } => through(input, function, name),
        IR::Union { .. } => Some(name),
        IR::Join { .. } => name_in(input, name),
        IR::Sort { .. } => Some(name),
    }
}

/// The columns of the first input that stand under some names, where each is a plain column there.
#[tactic(auto, using(crate::proofs::Below::below_rules))]
fn columns_below(
    alloc: Global,
    input: &Schema,
    node: &IR,
    columns: &[Text],
) -> Result<Option<List<Text>>, AllocError>
    ensures { IfOk result (λ names. names ≡ names_below input.now (node_of node.now) columns.now) }
{
    let mut names = List::new(alloc);
    for name in columns {
        match column_below(input, node, name) {
            Some(below) => names.push(below.try_clone()?)?,
            None => return Ok(None),
        }
    }
    Ok(Some(names))
}

/// What a node's first input is asked, where the node's rows are made of its rows one by one.
pub(crate) fn wish_below(
    alloc: Global,
    input: &Schema,
    node: &IR,
    wish: &Wish,
) -> Result<Option<Wish>, AllocError>
    ensures { IfOk result (λ below.
        option_to_list below ≡ wishes_below input.now (node_of node.now) wish.now) }
{
    match wish {
        Wish::Split => Ok(Some(Wish::Split)),
        Wish::Key { key, columns } => {
            match columns_below(alloc, input, node, columns.as_slice())? {
                Some(columns) => Ok(Some(Wish::Key { key: *key, columns })),
                None => Ok(None),
            }
        }
        Wish::Whole => Ok(Some(Wish::Whole)),
    }
}
