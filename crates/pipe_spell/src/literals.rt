//! Whether a job may have the literals that it has.

ghost use Rattle.std.specs.Prelude.{◌≡◌, map};
ghost use Rattle.std.specs.List.{list_all};
ghost use Rattle.pipe_expr.specs.Formula.{formula_of, formulas_of, named_formulas_of};
ghost use Rattle.pipe_plan.specs.Node.{node_of};
ghost use Rattle.pipe_job.specs.JobSpelling.{task_of};
ghost use Rattle.pipe_spell.specs.Literals.{formula_known, literal_known, named_known, node_known, task_known};

use pipe_expr::{Expr, NamedExpr};
use pipe_job::Job;
use pipe_plan::IR;
use pipe_schema::{AnyValue, DataType};

/// Whether a literal is null or of the type beside it, which the version has.
fn is_literal_known(version: u32, dtype: DataType, value: &AnyValue) -> bool
    ensures { result ≡ literal_known version dtype value.now }
{
    value.fits(dtype) && !(version == 1 && dtype == DataType::Int128)
}

/// Whether each literal of an expression is known.
fn is_known(version: u32, expr: &Expr) -> bool
    ensures { result ≡ formula_known version (formula_of expr.now) }
{
    match expr {
        Expr::Col(_) => true,
        Expr::Lit { dtype, value } => is_literal_known(version, *dtype, value),
        Expr::Add(left, right)
        | Expr::Sub(left, right)
        | Expr::Mul(left, right)
        | Expr::Eq(left, right)
        | Expr::NotEq(left, right)
        | Expr::Lt(left, right)
        | Expr::LtEq(left, right)
        | Expr::Gt(left, right)
        | Expr::GtEq(left, right)
        | Expr::And(left, right)
        | Expr::Or(left, right) => is_known(version, left) && is_known(version, right),
        Expr::Not(inner) | Expr::IsNull(inner) | Expr::IsNotNull(inner) => is_known(version, inner),
    }
}

/// Whether each literal of some expressions is known.
fn are_known(version: u32, exprs: &[Expr]) -> bool
    ensures { result ≡ list_all (formula_known version) (formulas_of exprs.now) }
{
    for expr in exprs {
        if !is_known(version, expr) {
            return false;
        }
    }
    true
}

/// Whether each literal of some named expressions is known.
fn are_named_known(version: u32, exprs: &[NamedExpr]) -> bool
    ensures { result ≡ list_all (named_known version) (named_formulas_of exprs.now) }
{
    for named in exprs {
        if !is_known(version, &named.expr) {
            return false;
        }
    }
    true
}

/// Whether each literal of a node is known.
fn is_node_known(version: u32, node: &IR) -> bool
    ensures { result ≡ node_known version (node_of node.now) }
{
    match node {
        IR::Filter { predicate, .. } => is_known(version, predicate),
        IR::Select { exprs, .. } | IR::HStack { exprs, .. } => {
            are_named_known(version, exprs.as_slice())
        }
        IR::Join {
            left_on,
            right_on,
            ..
        } => are_known(version, left_on.as_slice()) && are_known(version, right_on.as_slice()),
        IR::DataFrameScan { .. }
        | IR::SimpleProjection { .. }
        | IR::MapFunction { .. }
        | IR::Union { .. }
        | IR::Sort { .. } => true,
    }
}

/// Whether each literal of some nodes is known.
fn are_nodes_known(version: u32, nodes: &[IR]) -> bool
    ensures { result ≡ list_all (node_known version) (map node_of nodes.now) }
{
    for node in nodes {
        if !is_node_known(version, node) {
            return false;
        }
    }
    true
}

/// Whether a job may have the literals of its nodes: each is null or of the type beside it, and in version 1 none has
/// the type Int128.
pub fn has_known_literals(job: &Job) -> bool
    ensures { result ≡ task_known (task_of job.now) }
{
    are_nodes_known(job.version, job.arena.nodes.as_slice())
}
