//! When a join's keys are bad: too few, of unequal counts, or none that can be coalesced.

ghost use Rattle.std.specs.Prelude.{◌≡◌, map, length, not, ◌&&◌, ◌||◌, IfOk};
ghost use Rattle.std.specs.List.{list_all};
ghost use Rattle.pipe_expr.specs.Formula.{formula_of};
ghost use Rattle.pipe_expr.specs.Joins.{coalesces};
ghost use Rattle.pipe_plan.specs.Node.{node_of};
ghost use Rattle.pipe_plan.specs.Faults.{is_column, repeats_name, are_plain, bad_counts, is_bad_join};

use crate::joined::{is_coalescing, plain_names};
use pipe_expr::{Expr, JoinType};
use pipe_plan::{IR, JoinOptions};
use pipe_schema::{Text, first_repeated};
use std::alloc::{AllocError, Global};

/// Whether an expression is a plain column.
fn is_plain(expr: &Expr) -> bool
    ensures { result ≡ is_column (formula_of expr.now) }
{
    match expr {
        Expr::Col(_) => true,
        _ => false,
    }
}

/// Whether each of some expressions is a plain column.
fn are_all_plain(exprs: &[Expr]) -> bool
    ensures { result ≡ list_all is_column (map formula_of exprs.now) }
{
    for expr in exprs {
        if !is_plain(expr) {
            return false;
        }
    }
    true
}

/// Whether one of some names stands twice.
#[tactic(auto, using(crate::proofs::Unknown::repeated_rules))]
pub(crate) fn is_name_repeated(alloc: Global, names: &[Text]) -> Result<bool, AllocError>
    ensures { IfOk result (λ holds. holds ≡ repeats_name names.now) }
{
    match first_repeated(alloc, names)? {
        Some(_) => Ok(true),
        None => Ok(false),
    }
}

/// Whether the keys of one side can be coalesced: plain columns, each once.
fn are_coalescible(alloc: Global, on: &[Expr]) -> Result<bool, AllocError>
    ensures { IfOk result (λ holds. holds ≡ are_plain (map formula_of on.now)) }
{
    let names = plain_names(alloc, on)?;
    let is_repeated = is_name_repeated(alloc, names.as_slice())?;
    Ok(are_all_plain(on) && !is_repeated)
}

/// Whether a kind of join can't have so many keys: a cross join has none, each other join one or more, and as many
/// on each side.
fn are_counts_bad(how: JoinType, left: usize, right: usize) -> bool
    ensures { result ≡ bad_counts how left right }
{
    match how {
        JoinType::Cross => !(left == 0 && right == 0),
        JoinType::Inner | JoinType::Left | JoinType::Full | JoinType::Semi | JoinType::Anti => {
            left == 0 || left != right
        }
    }
}

/// Whether keys are coalesced that can't be.
fn are_coalesced_badly(
    alloc: Global,
    left_on: &[Expr],
    right_on: &[Expr],
    options: &JoinOptions,
) -> Result<bool, AllocError>
    ensures { let coalesced = coalesces options.now.how options.now.coalesce in
        let left_plain = are_plain (map formula_of left_on.now) in
        let right_plain = are_plain (map formula_of right_on.now) in
        IfOk result (λ holds. holds ≡ (coalesced && not (left_plain && right_plain))) }
{
    let is_left_plain = are_coalescible(alloc, left_on)?;
    let is_right_plain = are_coalescible(alloc, right_on)?;
    Ok(is_coalescing(options) && !(is_left_plain && is_right_plain))
}

/// Whether a node is a join with bad keys.
pub(crate) fn is_join_bad(alloc: Global, node: &IR) -> Result<bool, AllocError>
    ensures { IfOk result (λ holds. holds ≡ is_bad_join (node_of node.now)) }
{
    match node {
        IR::Join {
            left_on,
            right_on,
            options,
            ..
        } => {
            let are_bad = are_coalesced_badly(
                alloc,
                left_on.as_slice(),
                right_on.as_slice(),
                options,
            )?;
            Ok(are_counts_bad(options.how, left_on.len(), right_on.len()) || are_bad)
        }
        IR::DataFrameScan { .. }
        | IR::Filter { .. }
        | IR::SimpleProjection { .. }
        | IR::Select { .. }
        | IR::HStack { .. }
        | IR::MapFunction { .. }
        | IR::Union { .. }
        | IR::Sort { .. } => Ok(false),
    }
}
