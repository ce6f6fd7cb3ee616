//! Whether all that an expression reads passes a test.

ghost use Rattle.std.specs.Prelude.{◌≡◌, ℕ, List, Bool};
ghost use Rattle.pipe_expr.specs.Formula.{formula_of};
ghost use Rattle.pipe_rules.specs.Placing.{reads_only as only_reads};

use pipe_expr::Expr;
use pipe_schema::Text;

/// A test of names.
pub trait NameTest {
    /// Whether a name passes.
    ghost passes: { Self → List ℕ → Bool };

    /// Whether a name passes.
    fn passes(&self, name: &Text) -> bool
        ensures { result ≡ passes self.now name.now };
}

/// Whether each column that an expression reads passes a test.
#[tactic(auto, using(crate::proofs::Tests::reading_rules))]
pub fn reads_only<T: NameTest>(expr: &Expr, test: &T) -> bool
    ensures { result ≡ only_reads (T.passes test.now) (formula_of expr.now) }
{
    match expr {
        Expr::Col(name) => test.passes(name),
        Expr::Lit { .. } => true,
        Expr::Add(left, right)
        | Expr::Sub(left, right)
        | Expr::Mul(left, right)
        | Expr::Eq(left, right)
        | Expr::NotEq(left, right)
        | Expr::Lt(left, right)
        | Expr::LtEq(left, right)
        | Expr::Gt(left, right)
        | Expr::GtEq(left, right)
        | Expr::And(left, right)
        | Expr::Or(left, right) => reads_only(left, test) && reads_only(right, test),
        Expr::Not(inner) | Expr::IsNull(inner) | Expr::IsNotNull(inner) => {
            reads_only(inner, test)
        }
    }
}
