//! Expressions as values.

ghost use Rattle.std.specs.Prelude.{◌≡◌, IfOk, OnOk};
ghost use Rattle.pipe_value.specs.View.{view};
ghost use Rattle.pipe_job.specs.FormulaSpelling.{expr_spelling, literal_spelling, named_expr_spelling};
ghost use Rattle.pipe_job.specs.Spelling.{couple as couple_spelling, single as single_spelling};
ghost use Rattle.pipe_spell.specs.Ranges.{CellInRange, ExprInRange, NamedExprInRange};

use crate::cells::{cell_value, type_name};
use crate::lists::couple;
use crate::object::{Object, single};
use crate::spell::Spell;
use pipe_expr::{Expr, NamedExpr};
use pipe_schema::{AnyValue, DataType};
use pipe_value::Value;
use std::alloc::{AllocError, Global};

/// The value that spells a literal.
fn literal_value(alloc: Global, dtype: DataType, cell: &AnyValue) -> Result<Value, AllocError>
    ensures spelled { IfOk result (λ value. view value ≡ literal_spelling dtype cell.now) }
    ensures fits { OnOk result (CellInRange cell.now) }
{
    let mut object = Object::new(alloc);
    let value = cell_value(alloc, cell)?;
    object.put(alloc, "value", value)?;
    object.word(alloc, "type", type_name(dtype))?;
    Ok(object.into_value())
}

/// The value that spells an operator on two expressions, of the values that spell these.
fn on_two(alloc: Global, name: &str, left: Value, right: Value) -> Result<Value, AllocError>
    ensures { IfOk result (λ value. view value
        ≡ single_spelling name.now (couple_spelling (view left) (view right))) }
{
    let both = couple(alloc, left, right)?;
    single(alloc, name, both)
}

/// The value that spells an expression.
fn expr_value(alloc: Global, expr: &Expr) -> Result<Value, AllocError>
    ensures spelled { IfOk result (λ value. view value ≡ expr_spelling expr.now) }
    ensures fits { OnOk result (ExprInRange expr.now) }
{
    match expr {
        Expr::Col(name) => single(alloc, "col", name.spell(alloc)?),
        Expr::Lit { dtype, value } => { single(alloc, "lit", literal_value(alloc, *dtype, value)?) }
        Expr::Add(left, right) => on_two(
            alloc,
            "add",
            expr_value(alloc, left)?,
            expr_value(alloc, right)?,
        ),
        Expr::Sub(left, right) => on_two(
            alloc,
            "sub",
            expr_value(alloc, left)?,
            expr_value(alloc, right)?,
        ),
        Expr::Mul(left, right) => on_two(
            alloc,
            "mul",
            expr_value(alloc, left)?,
            expr_value(alloc, right)?,
        ),
        Expr::Eq(left, right) => on_two(
            alloc,
            "eq",
            expr_value(alloc, left)?,
            expr_value(alloc, right)?,
        ),
        Expr::NotEq(left, right) => on_two(
            alloc,
            "not_eq",
            expr_value(alloc, left)?,
            expr_value(alloc, right)?,
        ),
        Expr::Lt(left, right) => on_two(
            alloc,
            "lt",
            expr_value(alloc, left)?,
            expr_value(alloc, right)?,
        ),
        Expr::LtEq(left, right) => on_two(
            alloc,
            "lt_eq",
            expr_value(alloc, left)?,
            expr_value(alloc, right)?,
        ),
        Expr::Gt(left, right) => on_two(
            alloc,
            "gt",
            expr_value(alloc, left)?,
            expr_value(alloc, right)?,
        ),
        Expr::GtEq(left, right) => on_two(
            alloc,
            "gt_eq",
            expr_value(alloc, left)?,
            expr_value(alloc, right)?,
        ),
        Expr::And(left, right) => on_two(
            alloc,
            "and",
            expr_value(alloc, left)?,
            expr_value(alloc, right)?,
        ),
        Expr::Or(left, right) => on_two(
            alloc,
            "or",
            expr_value(alloc, left)?,
            expr_value(alloc, right)?,
        ),
        Expr::Not(inner) => single(alloc, "not", expr_value(alloc, inner)?),
        Expr::IsNull(inner) => single(alloc, "is_null", expr_value(alloc, inner)?),
        Expr::IsNotNull(inner) => single(alloc, "is_not_null", expr_value(alloc, inner)?),
    }
}

impl Spell for Expr {
    ghost spelling = { expr_spelling };

    ghost fits = { ExprInRange };

    fn spell(&self, alloc: Global) -> Result<Value, AllocError> {
        expr_value(alloc, self)
    }
}

impl Spell for NamedExpr {
    ghost spelling = { named_expr_spelling };

    ghost fits = { NamedExprInRange };

    fn spell(&self, alloc: Global) -> Result<Value, AllocError> {
        let mut object = Object::new(alloc);
        object.field(alloc, "name", &self.name)?;
        object.field(alloc, "expr", &self.expr)?;
        Ok(object.into_value())
    }
}
