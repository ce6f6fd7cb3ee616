//! When a join is a bad one: by the numbers of its keys, and by what its keys are where they coalesce.

ghost use Rattle.std.specs.Prelude.{◌≡◌, ◌==◌, ◌&&◌, ◌||◌, ◌++◌, ◌∷◌, [], length, map, not, IfOk, OnOk};
ghost use Rattle.std.specs.List.{list_all};
ghost use Rattle.pipe_expr.specs.Formula.{formula_of};
ghost use Rattle.pipe_expr.specs.Joins.{column_names};
ghost use Rattle.pipe_plan.specs.Node.{node_of};
ghost use Rattle.pipe_plan.specs.Faults.{is_column, are_plain, bad_counts, is_bad_join};

use crate::names::is_name_repeated;
use pipe_expr::{Expr, JoinType};
use pipe_pairs::is_coalesced;
use pipe_plan::{IR, JoinOptions};
use pipe_schema::{List, Text, TryClone};
use std::alloc::{AllocError, Global};

/// Whether an expression is a plain column.
fn is_plain(expr: &Expr) -> bool
    ensures { result ≡ is_column (formula_of expr.now) }
{
    match expr {
        Expr::Col(_) => true,
        _ => false,
    }
}

/// Whether all of some expressions are plain columns.
fn are_all_plain(exprs: &[Expr]) -> bool
    ensures { result ≡ list_all is_column (map formula_of exprs.now) }
{
    for expr in exprs {
        if !is_plain(expr) {
            return false;
        }
    }
    true
}

/// Adds the name of an expression that is a plain column.
fn push_column_name(names: &mut List<Text>, expr: &Expr) -> Result<(), AllocError>
    ensures { OnOk result (names.new ≡ names.old ++ column_names (formula_of expr.now ∷ [])) }
{
    match expr {
        Expr::Col(name) => {
            names.push(name.try_clone()?)?;
            Ok(())
        }
        _ => Ok(()),
    }
}

/// The names of the plain columns among some expressions.
fn plain_names(alloc: Global, exprs: &[Expr]) -> Result<List<Text>, AllocError>
    ensures { IfOk result (λ names. names ≡ column_names (map formula_of exprs.now)) }
{
    let mut names = List::new(alloc);
    for expr in exprs {
        push_column_name(&mut names, expr)?;
    }
    Ok(names)
}

/// Whether the keys of a side are plain columns, each once.
fn are_keys_plain(alloc: Global, on: &[Expr]) -> Result<bool, AllocError>
    ensures { IfOk result (λ holds. holds ≡ are_plain (map formula_of on.now)) }
{
    let names = plain_names(alloc, on)?;
    let is_repeated = is_name_repeated(names.as_slice())?;
    Ok(are_all_plain(on) && !is_repeated)
}

/// Whether a kind of join may not have so many keys on its sides.
fn are_keys_miscounted(how: JoinType, left: usize, right: usize) -> bool
    ensures { result ≡ bad_counts how left right }
{
    match how {
        JoinType::Inner | JoinType::Left | JoinType::Full | JoinType::Semi | JoinType::Anti => left
            == 0
            || left != right,
        JoinType::Cross => !(left == 0 && right == 0),
    }
}

/// Whether a join is a bad one.
fn is_join_bad(
    alloc: Global,
    left: u32,
    right: u32,
    left_on: &List<Expr>,
    right_on: &List<Expr>,
    options: &JoinOptions,
) -> Result<bool, AllocError>
    ensures { IfOk result (λ holds.
        holds ≡ is_bad_join (node_of (IR.Join left right left_on.now right_on.now options.now))) }
{
    let are_left_plain = are_keys_plain(alloc, left_on.as_slice())?;
    let are_right_plain = are_keys_plain(alloc, right_on.as_slice())?;
    let are_miscounted = are_keys_miscounted(options.how, left_on.len(), right_on.len());
    Ok(
        are_miscounted
            || (is_coalesced(options.how, options.coalesce)
                && !(are_left_plain && are_right_plain)),
    )
}

/// Whether a node is a bad join.
pub(crate) fn is_node_bad_join(alloc: Global, node: &IR) -> Result<bool, AllocError>
    ensures { IfOk result (λ holds. holds ≡ is_bad_join (node_of node.now)) }
{
    match node {
        IR::Join {
            left,
            right,
            left_on,
            right_on,
            options,
        } => is_join_bad(alloc, *left, *right, left_on, right_on, options),
        IR::DataFrameScan { .. } => Ok(false),
        IR::Filter { .. } => Ok(false),
        IR::SimpleProjection { .. } => Ok(false),
        IR::Select { .. } => Ok(false),
        IR::HStack { .. } => Ok(false),
        IR::MapFunction { .. } => Ok(false),
        IR::Union { .. } => Ok(false),
        IR::Sort { .. } => Ok(false),
    }
}
