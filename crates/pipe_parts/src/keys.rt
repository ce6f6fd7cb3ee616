//! What the two sides of a join are asked.

ghost use Rattle.std.specs.Prelude.{◌≡◌, ◌++◌, ◌∷◌, [], map, IfOk, OnOk};
ghost use Rattle.std.specs.List.{list_all};
ghost use Rattle.pipe_expr.specs.Formula.{formula_of};
ghost use Rattle.pipe_expr.specs.Joins.{column_names};
ghost use Rattle.pipe_plan.specs.Faults.{is_column};
ghost use Rattle.pipe_parts.specs.Wishes.{by_key as keyed_ways, split_ways as ways_by, keyed_on, same_names, beside_whole};
ghost use Rattle.pipe_parts.specs.declared.wish.Wish.TheVariants.{Split, Whole};
ghost use Rattle.pipe_parts.specs.Sides.{sides_in, way_if, IsKeyedBy};

use crate::wish::Wish;
use pipe_check::plain_names;
use pipe_expr::{Expr, JoinType};
use pipe_schema::{List, Text};
use std::alloc::{AllocError, Global};

/// What the left and the right side are asked.
#[derive(Debug, Drop)]
pub struct Sides {
    pub left: Wish,
    pub right: Wish,
}

/// Whether an expression is a plain column.
fn is_plain(expr: &Expr) -> bool
    ensures { result ≡ is_column (formula_of expr.now) }
{
    match expr {
        Expr::Col(_) => true,
        _ => false,
    }
}

/// Whether each of some expressions is a plain column.
fn are_plain(exprs: &[Expr]) -> bool
    ensures { result ≡ list_all is_column (map formula_of exprs.now) }
{
    for expr in exprs {
        if !is_plain(expr) {
            return false;
        }
    }
    true
}

/// Whether two lists of names are the same.
fn are_same(names: &[Text], others: &[Text]) -> bool
    ensures { result ≡ same_names names.now others.now }
{
    if names.len() != others.len() {
        return false;
    }
    for place in 0..names.len() {
        if !names[place].is_same(&others[place]) {
            return false;
        }
    }
    true
}

/// Both sides by a key, where the join's keys are plain columns.
pub(crate) fn by_key(
    alloc: Global,
    key: u32,
    left_on: &[Expr],
    right_on: &[Expr],
) -> Result<Option<Sides>, AllocError>
    ensures left { IfOk result (IsKeyedBy key (column_names (map formula_of left_on.now))) }
    ensures ways { IfOk result (λ sides. way_if sides
        ≡ keyed_ways key (map formula_of left_on.now) (map formula_of right_on.now)) }
{
    if !are_plain(left_on) || !are_plain(right_on) {
        return Ok(None);
    }
    let left = Wish::Key {
        key,
        columns: plain_names(alloc, left_on)?,
    };
    let right = Wish::Key {
        key,
        columns: plain_names(alloc, right_on)?,
    };
    Ok(Some(Sides { left, right }))
}

/// Both sides by a key that comes from above, where its columns are the join's left keys.
pub(crate) fn by_key_on(
    alloc: Global,
    key: u32,
    columns: &[Text],
    left_on: &[Expr],
    right_on: &[Expr],
) -> Result<Option<Sides>, AllocError>
    ensures left { IfOk result (IsKeyedBy key columns.now) }
    ensures ways { IfOk result (λ sides. way_if sides
        ≡ keyed_on key columns.now (map formula_of left_on.now) (map formula_of right_on.now)) }
{
    let names = plain_names(alloc, left_on)?;
    if are_same(columns, names.as_slice()) {
        Ok(by_key(alloc, key, left_on, right_on)?)
    } else {
        Ok(None)
    }
}

/// The left side in parts beside the whole right side.
fn left_split() -> Sides
    ensures { sides_in result ≡ beside_whole Split }
{
    Sides {
        left: Wish::Split,
        right: Wish::Whole,
    }
}

/// The right side in parts beside the whole left side.
fn right_split() -> Sides
    ensures { sides_in result ≡ Whole ∷ Split ∷ [] }
{
    Sides {
        left: Wish::Whole,
        right: Wish::Split,
    }
}

/// The ways in which a join's rows can be had in parts, in any way.
pub(crate) fn split_ways(
    alloc: Global,
    how: JoinType,
    keyed: Option<Sides>,
) -> Result<List<Sides>, AllocError>
    ensures { IfOk result (λ ways. map sides_in ways ≡ ways_by how (way_if keyed)) }
{
    let mut ways = List::new(alloc);
    match how {
        JoinType::Inner => {
            ways.push(left_split())?;
            ways.push(right_split())?;
            push_some(&mut ways, keyed)?;
        }
        JoinType::Cross => {
            ways.push(left_split())?;
            ways.push(right_split())?;
        }
        JoinType::Full => push_some(&mut ways, keyed)?,
        JoinType::Left | JoinType::Semi | JoinType::Anti => {
            ways.push(left_split())?;
            push_some(&mut ways, keyed)?;
        }
    }
    Ok(ways)
}

/// Puts a way behind others, if there is one.
fn push_some(ways: &mut List<Sides>, way: Option<Sides>) -> Result<(), AllocError>
    ensures { OnOk result (map sides_in ways.new ≡ map sides_in ways.old ++ way_if way) }
{
    match way {
        Some(way) => Ok(ways.push(way)?),
        None => Ok(()),
    }
}
