//! Copies of expressions whose columns get other names.

ghost use Rattle.std.specs.Prelude.{◌≡◌, ℕ, List, IfOk};
ghost use Rattle.pipe_expr.specs.Formula.{formula_of};
ghost use Rattle.pipe_rules.specs.Names.{with_names as named_anew};

use pipe_expr::Expr;
use pipe_schema::{Text, TryClone};
use std::alloc::{AllocError, Global};

/// What gives a column another name.
pub trait Naming {
    /// The name for a name.
    ghost name_for: { Self → List ℕ → List ℕ };

    /// The name for a name.
    fn name_for(&self, name: &Text) -> Result<Text, AllocError>
        ensures { IfOk result (λ other. other ≡ name_for self.now name.now) };
}

/// An expression in a box.
fn boxed(alloc: Global, expr: Expr) -> Result<Box<Expr>, AllocError>
    ensures { IfOk result (λ b. b.value ≡ expr) }
{
    Ok(Box::new(alloc, expr)?)
}

/// A copy of an expression whose columns get other names.
pub fn with_names<N: Naming>(alloc: Global, expr: &Expr, naming: &N) -> Result<Expr, AllocError>
    ensures { IfOk result (λ copy.
        formula_of copy ≡ named_anew (N.name_for naming.now) (formula_of expr.now)) }
{
    match expr {
        Expr::Col(name) => Ok(Expr::Col(naming.name_for(name)?)),
        Expr::Lit { dtype, value } => Ok(Expr::Lit {
            dtype: *dtype,
            value: value.try_clone()?,
        }),
        Expr::Add(a, b) => Ok(Expr::Add(
            boxed(alloc, with_names(alloc, a, naming)?)?,
            boxed(alloc, with_names(alloc, b, naming)?)?,
        )),
        Expr::Sub(a, b) => Ok(Expr::Sub(
            boxed(alloc, with_names(alloc, a, naming)?)?,
            boxed(alloc, with_names(alloc, b, naming)?)?,
        )),
        Expr::Mul(a, b) => Ok(Expr::Mul(
            boxed(alloc, with_names(alloc, a, naming)?)?,
            boxed(alloc, with_names(alloc, b, naming)?)?,
        )),
        Expr::Eq(a, b) => Ok(Expr::Eq(
            boxed(alloc, with_names(alloc, a, naming)?)?,
            boxed(alloc, with_names(alloc, b, naming)?)?,
        )),
        Expr::NotEq(a, b) => Ok(Expr::NotEq(
            boxed(alloc, with_names(alloc, a, naming)?)?,
            boxed(alloc, with_names(alloc, b, naming)?)?,
        )),
        Expr::Lt(a, b) => Ok(Expr::Lt(
            boxed(alloc, with_names(alloc, a, naming)?)?,
            boxed(alloc, with_names(alloc, b, naming)?)?,
        )),
        Expr::LtEq(a, b) => Ok(Expr::LtEq(
            boxed(alloc, with_names(alloc, a, naming)?)?,
            boxed(alloc, with_names(alloc, b, naming)?)?,
        )),
        Expr::Gt(a, b) => Ok(Expr::Gt(
            boxed(alloc, with_names(alloc, a, naming)?)?,
            boxed(alloc, with_names(alloc, b, naming)?)?,
        )),
        Expr::GtEq(a, b) => Ok(Expr::GtEq(
            boxed(alloc, with_names(alloc, a, naming)?)?,
            boxed(alloc, with_names(alloc, b, naming)?)?,
        )),
        Expr::And(a, b) => Ok(Expr::And(
            boxed(alloc, with_names(alloc, a, naming)?)?,
            boxed(alloc, with_names(alloc, b, naming)?)?,
        )),
        Expr::Or(a, b) => Ok(Expr::Or(
            boxed(alloc, with_names(alloc, a, naming)?)?,
            boxed(alloc, with_names(alloc, b, naming)?)?,
        )),
        Expr::Not(a) => Ok(Expr::Not(boxed(alloc, with_names(alloc, a, naming)?)?)),
        Expr::IsNull(a) => Ok(Expr::IsNull(boxed(alloc, with_names(alloc, a, naming)?)?)),
        Expr::IsNotNull(a) => Ok(Expr::IsNotNull(boxed(alloc, with_names(alloc, a, naming)?)?)),
    }
}
