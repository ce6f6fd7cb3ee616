//! The fields of an HStack: the input's columns, with those of expressions in the places of their names or behind.

ghost use Rattle.std.specs.Prelude.{◌≡◌, ◌++◌, map, IfOk, OnOk};
ghost use Rattle.pipe_expr.specs.Formula.{named_formula_of};
ghost use Rattle.pipe_expr.specs.Projections.{expr_field, is_new, new_exprs, stacked_field, hstack_fields};

use crate::columns::Columns;
use crate::named::NameIndex;
use crate::named_fields::field_of_expr;
use pipe_expr::NamedExpr;
use pipe_schema::{Field, List, TryClone};
use std::alloc::{AllocError, Global};

/// A field, or that of the first expression of its name.
#[tactic(auto, using(crate::proofs::Names::name_rules))]
fn field_or_replaced(
    field: &Field,
    exprs: &NameIndex<NamedExpr>,
    columns: &Columns,
) -> Result<Field, AllocError>
    ensures { let formulas = map named_formula_of exprs.now in
        IfOk result (λ made. made ≡ stacked_field columns.now formulas field.now) }
{
    match exprs.first(&field.name) {
        Some(expr) => Ok(field_of_expr(expr, columns)?),
        None => Ok(field.try_clone()?),
    }
}

/// Whether no column has the name of an expression.
#[tactic(auto, using(crate::proofs::Names::name_rules))]
fn is_expr_new(expr: &NamedExpr, columns: &Columns) -> bool
    ensures { result ≡ is_new columns.now (named_formula_of expr.now) }
{
    match columns.field(&expr.name) {
        Some(_) => false,
        None => true,
    }
}

/// Adds the fields of the expressions under names that no column has.
fn push_new_fields(
    fields: &mut List<Field>,
    exprs: &[NamedExpr],
    columns: &Columns,
) -> Result<(), AllocError>
    ensures { let added = new_exprs columns.now (map named_formula_of exprs.now) in
        OnOk result (fields.new ≡ fields.old ++ map (expr_field columns.now) added) }
{
    for expr in exprs {
        if is_expr_new(expr, columns) {
            fields.push(field_of_expr(expr, columns)?)?;
        }
    }
    Ok(())
}

/// The fields of the columns, each its own or that of the first expression of its name.
fn replaced_fields(
    alloc: Global,
    columns: &Columns,
    exprs: &NameIndex<NamedExpr>,
) -> Result<List<Field>, AllocError>
    ensures { let formulas = map named_formula_of exprs.now in
        IfOk result (λ made. made ≡ map (stacked_field columns.now formulas) columns.now) }
{
    let mut made = List::new(alloc);
    for field in columns.fields() {
        made.push(field_or_replaced(field, exprs, columns)?)?;
    }
    Ok(made)
}

/// The columns, with those of expressions in the places of their names, and the new ones behind.
pub(crate) fn stacked_fields(
    alloc: Global,
    columns: &Columns,
    exprs: &[NamedExpr],
) -> Result<List<Field>, AllocError>
    ensures { let formulas = map named_formula_of exprs.now in
        IfOk result (λ stacked. stacked ≡ hstack_fields columns.now formulas) }
{
    let replacing = NameIndex::of(alloc, exprs)?;
    let mut stacked = replaced_fields(alloc, columns, &replacing)?;
    push_new_fields(&mut stacked, exprs, columns)?;
    Ok(stacked)
}
