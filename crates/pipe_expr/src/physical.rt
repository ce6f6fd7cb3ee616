//! Expressions that were made for a schema: the columns that they give.

ghost use Rattle.std.specs.Prelude.{◌≡◌, IfOk};
ghost use Rattle.pipe_expr.specs.Formula.{formula_of, named_formula_of};
ghost use Rattle.pipe_expr.specs.Physical.{expr_column};
ghost use Rattle.pipe_expr.specs.Typing.{IsTyped};

use crate::evaluate::evaluate_expr;
use crate::expr::NamedExpr;
use crate::typing::expr_type;
use pipe_column::Series;
use pipe_frame::DataChunk;
use pipe_schema::{Field, Schema, Text, TryClone};
use std::alloc::{AllocError, Global};
use std::marker::Model;

/// An expression that was made for a schema, as an operator over chunks uses it.
pub trait PhysicalPipedExpr: Send + Sync {
    ghost use Rattle.std.specs.Prelude.{List};
    ghost use Rattle.pipe_frame.specs.Chunks.{HasSchema};
    ghost use Rattle.pipe_schema.specs.declared.field.Field.{Field as Column};
    ghost use Rattle.pipe_expr.specs.Projections.{expr_field};
    ghost use Rattle.pipe_expr.specs.Formula.{NamedFormula, named_formula_of};

    /// The expression's formula, with its name.
    ghost expr_of: { Self → NamedFormula };

    /// The schema that it was made for.
    ghost schema_of: { Self → List Column };

    /// The column over a chunk of that schema: under the expression's name, its value at each row.
    fn evaluate(&self, alloc: Global, chunk: &DataChunk) -> Result<Series, AllocError>
        requires { HasSchema (schema_of self.now) chunk.now }
        ensures { IfOk result (λ c. c ≡ expr_column (expr_of self.now) chunk.now.frame) };

    /// The name and the type of that column.
    fn field(&self, alloc: Global, input_schema: &Schema) -> Result<Field, AllocError>
        requires { input_schema.now ≡ schema_of self.now }
        ensures { IfOk result (λ f. f ≡ expr_field input_schema.now (expr_of self.now)) };

    /// The expression, which has a type over that schema.
    fn expression(&self) -> &NamedExpr
        ensures formula { named_formula_of result.now ≡ expr_of self.now }
        ensures typed { IsTyped (expr_of self.now).formula (schema_of self.now) };
}

/// An expression with its name, and the schema that it was made for.
#[derive(Debug)]
pub struct PhysicalExpr {
    expr: NamedExpr,
    schema: Schema,
}

impl Drop for PhysicalExpr {
    fn drop(self) {
        let PhysicalExpr { expr, schema } = self;
        drop(expr);
        drop(schema);
    }
}

impl Model for PhysicalExpr {
    ghost use Rattle.pipe_expr.specs.Physical.{Physical};
    ghost use Rattle.pipe_expr.specs.Formula.{formula_of};
    ghost use Rattle.pipe_expr.specs.Typing.{IsTyped};
    ghost use Rattle.pipe_expr.specs.contracts.expr.Expr as e;
    ghost use Rattle.std.specs.Coded.{codes};

    ghost Value = { Physical };

    ghost coded = { Prim.hlevel (codes, e.the_row.coded) };

    ghost view = { λ p. record { expr = p.expr; schema = p.schema } };

    ghost invariant = { λ p. IsTyped (formula_of p.expr.expr) p.schema };
}

impl PhysicalExpr {
    /// The schema that it was made for.
    pub fn schema(&self) -> &Schema
        ensures { result.now ≡ self.now.schema }
    {
        &self.schema
    }
}

impl PhysicalPipedExpr for PhysicalExpr {
    ghost expr_of = { λ p. named_formula_of p.expr };

    ghost schema_of = { λ p. p.schema };

    fn evaluate(&self, alloc: Global, chunk: &DataChunk) -> Result<Series, AllocError> {
        let name = Text::from_str(alloc, self.expr.name.as_str())?;
        Ok(evaluate_expr(alloc, name, &self.expr.expr, &chunk.frame)?)
    }

    fn field(&self, alloc: Global, input_schema: &Schema) -> Result<Field, AllocError> {
        match expr_type(&self.expr.expr, input_schema.fields()) {
            Some(dtype) => {
                let name = Text::from_str(alloc, self.expr.name.as_str())?;
                Ok(Field { name, dtype })
            }
            None => unreachable!(),
        }
    }

    fn expression(&self) -> &NamedExpr {
        &self.expr
    }
}

/// An expression, made for a schema over which it has a type. It has a copy of its own.
pub fn to_physical(
    _alloc: Global,
    expr: &NamedExpr,
    schema: &Schema,
) -> Result<PhysicalExpr, AllocError>
    requires { IsTyped (formula_of expr.now.expr) schema.now }
    ensures formula { IfOk result (λ p. named_formula_of p.expr ≡ named_formula_of expr.now) }
    ensures schema { IfOk result (λ p. p.schema ≡ schema.now) }
{
    Ok(PhysicalExpr {
        expr: expr.try_clone()?,
        schema: schema.try_clone()?,
    })
}
