//! How far expressions reach into a schema: the last of its fields that they read.

ghost use Rattle.std.specs.Prelude.{◌≡◌, length};
ghost use Rattle.pipe_schema.specs.Schema.{place_of};
ghost use Rattle.pipe_expr.specs.Formula.{formula_of};
ghost use Rattle.pipe_expr.specs.Types.{columns_in};
ghost use Rattle.pipe_rules.specs.Reach.{place_or, reach_of};

use pipe_expr::Expr;
use pipe_schema::{Schema, Text};

/// The place of a name's field, or the number of fields where no field has the name.
fn place(schema: &Schema, name: &Text) -> usize
    ensures { result ≡ place_or (length schema.now) (place_of name.now schema.now) }
{
    match schema.index_of(name.as_bytes()) {
        Some(place) => place,
        None => schema.len(),
    }
}

/// The greatest place of the fields that an expression reads, 0 where it reads none; the number of fields where it reads
/// one that isn't there.
#[tactic(auto, using(crate::proofs::Reaches::reach_rules))]
pub(crate) fn reach(schema: &Schema, expr: &Expr) -> usize
    ensures { result ≡ reach_of schema.now (columns_in (formula_of expr.now)) }
{
    match expr {
        Expr::Col(name) => place(schema, name),
        Expr::Lit { .. } => 0,
        Expr::Add(left, right)
        | Expr::Sub(left, right)
        | Expr::Mul(left, right)
        | Expr::Eq(left, right)
        | Expr::NotEq(left, right)
        | Expr::Lt(left, right)
        | Expr::LtEq(left, right)
        | Expr::Gt(left, right)
        | Expr::GtEq(left, right)
        | Expr::And(left, right)
        | Expr::Or(left, right) => reach(schema, left).max(reach(schema, right)),
        Expr::Not(inner) | Expr::IsNull(inner) | Expr::IsNotNull(inner) => reach(schema, inner),
    }
}
