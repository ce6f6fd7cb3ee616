//! Copies of expressions, renamings and functions.
//!
//! A copy's boxes lie elsewhere in memory, so an expression's copy isn't equal to its source: it has the same formula.

ghost use Rattle.std.specs.Prelude.{◌≡◌, IfOk};
ghost use Rattle.pipe_expr.specs.Formula.{formula_of, formulas_of, named_formula_of, named_formulas_of};

use crate::expr::{Expr, NamedExpr};
use crate::join_words::{FunctionIR, RenamePair};
use pipe_schema::{List, TryClone};
use std::alloc::{AllocError, Global};

/// A copy of an expression in a box, by the same allocator.
#[cycle(copies)]
fn copied(other: &Box<Expr>) -> Result<Box<Expr>, AllocError>
    ensures { IfOk result (λ copy. formula_of copy.value ≡ formula_of other.now.value) }
{
    Ok(Box::new(*Box::allocator(other), other.try_clone()?)?)
}

impl Expr {
    /// A copy, which has the same formula.
    #[cycle(copies)]
    pub fn try_clone(&self) -> Result<Expr, AllocError>
        ensures { IfOk result (λ copy. formula_of copy ≡ formula_of self.now) }
    {
        match self {
            Expr::Col(name) => Ok(Expr::Col(name.try_clone()?)),
            Expr::Lit { dtype, value } => Ok(Expr::Lit {
                dtype: *dtype,
                value: value.try_clone()?,
            }),
            Expr::Add(a, b) => Ok(Expr::Add(copied(a)?, copied(b)?)),
            Expr::Sub(a, b) => Ok(Expr::Sub(copied(a)?, copied(b)?)),
            Expr::Mul(a, b) => Ok(Expr::Mul(copied(a)?, copied(b)?)),
            Expr::Eq(a, b) => Ok(Expr::Eq(copied(a)?, copied(b)?)),
            Expr::NotEq(a, b) => Ok(Expr::NotEq(copied(a)?, copied(b)?)),
            Expr::Lt(a, b) => Ok(Expr::Lt(copied(a)?, copied(b)?)),
            Expr::LtEq(a, b) => Ok(Expr::LtEq(copied(a)?, copied(b)?)),
            Expr::Gt(a, b) => Ok(Expr::Gt(copied(a)?, copied(b)?)),
            Expr::GtEq(a, b) => Ok(Expr::GtEq(copied(a)?, copied(b)?)),
            Expr::And(a, b) => Ok(Expr::And(copied(a)?, copied(b)?)),
            Expr::Or(a, b) => Ok(Expr::Or(copied(a)?, copied(b)?)),
            Expr::Not(a) => Ok(Expr::Not(copied(a)?)),
            Expr::IsNull(a) => Ok(Expr::IsNull(copied(a)?)),
            Expr::IsNotNull(a) => Ok(Expr::IsNotNull(copied(a)?)),
        }
    }
}

impl NamedExpr {
    /// A copy, which has the same formula.
    pub fn try_clone(&self) -> Result<NamedExpr, AllocError>
        ensures { IfOk result (λ copy. named_formula_of copy ≡ named_formula_of self.now) }
    {
        Ok(NamedExpr {
            name: self.name.try_clone()?,
            expr: self.expr.try_clone()?,
        })
    }
}

/// Copies of some expressions, in their order.
#[tactic(auto, using(crate::proofs::Copies::copied_next))]
pub fn copy_exprs(alloc: Global, exprs: &[Expr]) -> Result<List<Expr>, AllocError>
    ensures { IfOk result (λ copies. formulas_of copies ≡ formulas_of exprs.now) }
{
    let mut copies = List::new(alloc);
    for expr in exprs {
        copies.push(expr.try_clone()?)?;
    }
    Ok(copies)
}

/// Copies of some expressions with their names, in their order.
#[tactic(auto, using(crate::proofs::Copies::copied_next))]
pub fn copy_named_exprs(alloc: Global, exprs: &[NamedExpr]) -> Result<List<NamedExpr>, AllocError>
    ensures { IfOk result (λ copies. named_formulas_of copies ≡ named_formulas_of exprs.now) }
{
    let mut copies = List::new(alloc);
    for expr in exprs {
        copies.push(expr.try_clone()?)?;
    }
    Ok(copies)
}

impl TryClone for RenamePair {
    fn try_clone(&self) -> Result<RenamePair, AllocError> {
        Ok(RenamePair {
            existing: self.existing.try_clone()?,
            new_name: self.new_name.try_clone()?,
        })
    }
}

impl TryClone for FunctionIR {
    fn try_clone(&self) -> Result<FunctionIR, AllocError> {
        match self {
            FunctionIR::Unpivot {
                on,
                index,
                variable,
                value,
            } => Ok(FunctionIR::Unpivot {
                on: on.try_clone()?,
                index: index.try_clone()?,
                variable: variable.try_clone()?,
                value: value.try_clone()?,
            }),
            FunctionIR::Rename { pairs } => Ok(FunctionIR::Rename {
                pairs: pairs.try_clone()?,
            }),
        }
    }
}
