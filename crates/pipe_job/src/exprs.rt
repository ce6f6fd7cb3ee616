//! Expressions in JSON.

ghost use Rattle.std.specs.Prelude.{◌≡◌, codes, IfOk};
ghost use Rattle.pipe_value.specs.View.{view};
ghost use Rattle.pipe_job.specs.Reads.{ReadWhere};
ghost use Rattle.pipe_job.specs.Shape.{is_literal, is_expr, is_text};
ghost use Rattle.pipe_job.specs.Spelling.{single};
ghost use Rattle.pipe_job.specs.FormulaSpelling.{expr_spelling, ExprFits, IsExpr};

use crate::cells::cell_of;
use crate::members::{Members, only_member, two_items};
use crate::misread::Misread;
use crate::ops::{Binary, Unary};
use crate::spelled::Spelled;
use pipe_expr::Expr;
use pipe_schema::{DataType, Text};
use pipe_value::Value;
use std::alloc::{AllocError, Global};

/// The literal that a value spells.
fn literal_of(alloc: Global, value: &Value) -> Result<Expr, Misread>
    ensures { ReadWhere (is_literal (view value.now))
        (λ x. (expr_spelling x ≡ single (codes "lit") (view value.now)) × ExprFits x) result }
{
    let mut members = Members::of(value)?;
    let dtype = members.field::<DataType>(alloc, "type")?;
    let inner = members.take("value")?;
    let value = cell_of(alloc, dtype, inner)?;
    members.end()?;
    Ok(Expr::Lit { dtype, value })
}

/// The column that a value names.
fn column_of(alloc: Global, value: &Value) -> Result<Expr, Misread>
    ensures { ReadWhere (is_text (view value.now))
        (λ x. (expr_spelling x ≡ single (codes "col") (view value.now)) × ExprFits x) result }
{
    Ok(Expr::Col(Text::read(alloc, value)?))
}

/// An expression in a box.
fn boxed(alloc: Global, expr: Expr) -> Result<Box<Expr>, AllocError>
    ensures { IfOk result (λ b. b.value ≡ expr) }
{
    Ok(Box::new(alloc, expr)?)
}

/// The expression that a value spells.
fn expr_of(alloc: Global, value: &Value) -> Result<Expr, Misread>
    ensures { ReadWhere (is_expr (view value.now)) (IsExpr (view value.now)) result }
{
    let (name, inner) = only_member(value)?;
    if name == "col" {
        return column_of(alloc, inner);
    }
    if name == "lit" {
        return literal_of(alloc, inner);
    }
    if let Some(op) = Unary::named(name) {
        let one = expr_of(alloc, inner)?;
        return Ok(op.on(boxed(alloc, one)?));
    }
    if let Some(op) = Binary::named(name) {
        let (left, right) = two_items(alloc, inner)?;
        let left = expr_of(alloc, left.value())?;
        let right = expr_of(alloc, right.value())?;
        return Ok(op.on(boxed(alloc, left)?, boxed(alloc, right)?));
    }
    Err(Misread::Other)
}

impl Spelled for Expr {
    ghost spelling = { expr_spelling };

    ghost fits = { ExprFits };

    ghost shape = { is_expr };

    fn read(alloc: Global, value: &Value) -> Result<Expr, Misread> {
        expr_of(alloc, value)
    }
}
