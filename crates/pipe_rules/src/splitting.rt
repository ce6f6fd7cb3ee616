//! The conjuncts of a predicate, and a predicate of conjuncts.

ghost use Rattle.std.specs.Prelude.{◌≡◌, ◌<◌, ◌≤◌, [], ◌++◌, map, take, drop, length, IfOk, OnOk, IfSome, IfNone};
ghost use Rattle.pipe_expr.specs.Formula.{formula_of};
ghost use Rattle.pipe_rules.specs.Conjuncts.{conjuncts_of, all_conjuncts};

use pipe_expr::Expr;
use pipe_schema::List;
use std::alloc::{AllocError, Global};

/// Puts copies of the conjuncts of a predicate behind some others.
#[tactic(auto, using(crate::proofs::Keys::push_rules))]
fn push_conjuncts(conjuncts: &mut List<Expr>, predicate: &Expr) -> Result<(), AllocError>
    ensures { OnOk result
        (map formula_of conjuncts.new
        ≡ map formula_of conjuncts.old ++ conjuncts_of (formula_of predicate.now)) }
{
    match predicate {
        Expr::And(left, right) => {
            push_conjuncts(conjuncts, left)?;
            push_conjuncts(conjuncts, right)?;
        }
        _ => conjuncts.push(predicate.try_clone()?)?,
    }
    Ok(())
}

/// Copies of the parts of a predicate that are joined by `And` at its top, from left to right.
pub fn conjuncts(alloc: Global, predicate: &Expr) -> Result<List<Expr>, AllocError>
    ensures { IfOk result (λ parts.
        map formula_of parts ≡ conjuncts_of (formula_of predicate.now)) }
{
    let mut parts = List::new(alloc);
    push_conjuncts(&mut parts, predicate)?;
    Ok(parts)
}

/// Some conjuncts in two parts: those before a place, and those from it on.
fn parted_at(conjuncts: &[Expr], place: usize) -> (&[Expr], &[Expr])
    requires { place ≤ length conjuncts.now }
    ensures before { result.0.now ≡ take place conjuncts.now }
    ensures after { result.1.now ≡ drop place conjuncts.now }
{
    (&conjuncts[..place], &conjuncts[place..])
}

/// A predicate that joins copies of one conjunct or more by `And`: that of their first half and that of their second,
/// so that it nests no deeper than the logarithm of their number.
fn joined(alloc: Global, conjuncts: &[Expr]) -> Result<Expr, AllocError>
    requires { 0 < length conjuncts.now }
    ensures { IfOk result (λ predicate.
        conjuncts_of (formula_of predicate) ≡ all_conjuncts (map formula_of conjuncts.now)) }
{
    if conjuncts.len() == 1 {
        return Ok(conjuncts[0].try_clone()?);
    }
    let (front, back) = parted_at(conjuncts, conjuncts.len() / 2);
    let left = Box::new(alloc, joined(alloc, front)?)?;
    let right = Box::new(alloc, joined(alloc, back)?)?;
    Ok(Expr::And(left, right))
}

/// The predicate that joins copies of some conjuncts by `And`, none where there is no conjunct.
pub fn conjunction(alloc: Global, conjuncts: &[Expr]) -> Result<Option<Expr>, AllocError>
    ensures some { IfOk result (λ made. IfSome made (λ predicate.
        conjuncts_of (formula_of predicate) ≡ all_conjuncts (map formula_of conjuncts.now))) }
    ensures none { IfOk result (λ made. IfNone made (conjuncts.now ≡ [])) }
{
    if conjuncts.is_empty() {
        Ok(None)
    } else {
        Ok(Some(joined(alloc, conjuncts)?))
    }
}
