//! The columns that expressions read.

ghost use Rattle.std.specs.Prelude.{◌≡◌, ◌++◌, ◌∷◌, [], map, IfOk, OnOk};
ghost use Rattle.pipe_schema.specs.Schema.{has_name};
ghost use Rattle.pipe_expr.specs.Formula.{formula_of, named_formula_of};
ghost use Rattle.pipe_expr.specs.Types.{columns_in};
ghost use Rattle.pipe_rules.specs.Needs.{columns_read as read_by, needed_exprs, keys_read as read_by_keys};

use crate::names::{has, kept_among};
use crate::outputs::expr_names;
use pipe_check::NameIndex;
use pipe_expr::{Expr, NamedExpr};
use pipe_schema::{List, Text, TryClone};
use std::alloc::{AllocError, Global};

/// Adds the columns that an expression reads.
pub(crate) fn push_columns(read: &mut List<Text>, expr: &Expr) -> Result<(), AllocError>
    ensures { OnOk result (read.new ≡ read.old ++ columns_in (formula_of expr.now)) }
{
    match expr {
        Expr::Col(name) => read.push(name.try_clone()?),
        Expr::Lit { .. } => Ok(()),
        Expr::Add(left, right)
        | Expr::Sub(left, right)
        | Expr::Mul(left, right)
        | Expr::Eq(left, right)
        | Expr::NotEq(left, right)
        | Expr::Lt(left, right)
        | Expr::LtEq(left, right)
        | Expr::Gt(left, right)
        | Expr::GtEq(left, right)
        | Expr::And(left, right)
        | Expr::Or(left, right) => {
            push_columns(read, left)?;
            push_columns(read, right)
        }
        Expr::Not(inner) | Expr::IsNull(inner) | Expr::IsNotNull(inner) => {
            push_columns(read, inner)
        }
    }
}

/// The columns that a predicate reads.
pub(crate) fn columns_of(alloc: Global, expr: &Expr) -> Result<List<Text>, AllocError>
    ensures { IfOk result (λ read. read ≡ columns_in (formula_of expr.now)) }
{
    let mut read = List::new(alloc);
    push_columns(&mut read, expr)?;
    Ok(read)
}

/// The columns that keys read.
pub(crate) fn keys_read(alloc: Global, keys: &[Expr]) -> Result<List<Text>, AllocError>
    ensures { IfOk result (λ read. read ≡ read_by_keys (map formula_of keys.now)) }
{
    let mut read = List::new(alloc);
    for key in keys {
        push_columns(&mut read, key)?;
    }
    Ok(read)
}

/// Adds the columns that an expression reads, where its name is needed.
fn push_if_needed(
    read: &mut List<Text>,
    needed: &NameIndex<Text>,
    expr: &NamedExpr,
) -> Result<(), AllocError>
    ensures { OnOk result (read.new ≡ read.old
        ++ read_by (needed_exprs (has_name needed.now) (named_formula_of expr.now ∷ []))) }
{
    if has(needed, &expr.name) {
        push_columns(read, &expr.expr)?;
    }
    Ok(())
}

/// The columns that the expressions under needed names read, which are looked up.
fn columns_read_under(
    alloc: Global,
    needed: &NameIndex<Text>,
    exprs: &[NamedExpr],
) -> Result<List<Text>, AllocError>
    ensures { IfOk result (λ read.
        read ≡ read_by (needed_exprs (has_name needed.now) (map named_formula_of exprs.now))) }
{
    let mut read = List::new(alloc);
    for expr in exprs {
        push_if_needed(&mut read, needed, expr)?;
    }
    Ok(read)
}

/// The columns that the expressions under needed names read. Of the needed names only those count that an expression
/// has.
pub(crate) fn columns_read(
    alloc: Global,
    needed: &[Text],
    exprs: &[NamedExpr],
) -> Result<List<Text>, AllocError>
    ensures { IfOk result (λ read.
        read ≡ read_by (needed_exprs (has_name needed.now) (map named_formula_of exprs.now))) }
{
    let own = expr_names(alloc, exprs)?;
    let shared = kept_among(alloc, needed, own.as_slice())?;
    let index = NameIndex::of(alloc, shared.as_slice())?;
    let read = columns_read_under(alloc, &index, exprs)?;
    Ok(read)
}
