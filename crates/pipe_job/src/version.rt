//! What the version of a job says of its types.

ghost use Rattle.std.specs.Prelude.{◌≡◌, map};
ghost use Rattle.std.specs.List.{list_any};
ghost use Rattle.pipe_value.specs.View.{view};
ghost use Rattle.pipe_expr.specs.Formula.{formula_of, formulas_of, named_formulas_of};
ghost use Rattle.pipe_plan.specs.Node.{node_of};
ghost use Rattle.pipe_plan.specs.Plan.{plan_of};
ghost use Rattle.pipe_job.specs.Kinds.{is_version};
ghost use Rattle.pipe_job.specs.Reads.{ReadWhere};
ghost use Rattle.pipe_job.specs.Version.{IsVersion, has_int128, named_has_int128, node_has_int128, field_has_int128, table_has_int128, plan_has_int128};

use crate::misread::Misread;
use pipe_expr::{Expr, NamedExpr};
use pipe_frame::DataFrame;
use pipe_plan::{Arena, IR};
use pipe_schema::{DataType, Field};
use pipe_value::Value;

/// The version that a value spells.
pub(crate) fn version_of(value: &Value) -> Result<u32, Misread>
    ensures { ReadWhere (is_version (view value.now)) (IsVersion (view value.now)) result }
{
    match value.as_u64() {
        Some(1) => Ok(1),
        Some(2) => Ok(2),
        _ => Err(Misread::Other),
    }
}

/// Whether a literal of the expression has the type Int128.
fn has_int128(expr: &Expr) -> bool
    ensures { result ≡ has_int128 (formula_of expr.now) }
{
    match expr {
        Expr::Col(_) => false,
        Expr::Lit { dtype, .. } => *dtype == DataType::Int128,
        Expr::Add(left, right)
        | Expr::Sub(left, right)
        | Expr::Mul(left, right)
        | Expr::Eq(left, right)
        | Expr::NotEq(left, right)
        | Expr::Lt(left, right)
        | Expr::LtEq(left, right)
        | Expr::Gt(left, right)
        | Expr::GtEq(left, right)
        | Expr::And(left, right)
        | Expr::Or(left, right) => has_int128(left) || has_int128(right),
        Expr::Not(inner) | Expr::IsNull(inner) | Expr::IsNotNull(inner) => has_int128(inner),
    }
}

/// Whether a literal of some expressions has the type Int128.
pub fn any_has_int128(exprs: &[Expr]) -> bool
    ensures { result ≡ list_any has_int128 (formulas_of exprs.now) }
{
    for expr in exprs {
        if has_int128(expr) {
            return true;
        }
    }
    false
}

/// Whether a literal of some named expressions has the type Int128.
fn any_named_has_int128(exprs: &[NamedExpr]) -> bool
    ensures { result ≡ list_any named_has_int128 (named_formulas_of exprs.now) }
{
    for named in exprs {
        if has_int128(&named.expr) {
            return true;
        }
    }
    false
}

/// Whether a literal of the node's expressions has the type Int128.
fn node_has_int128(node: &IR) -> bool
    ensures { result ≡ node_has_int128 (node_of node.now) }
{
    match node {
        IR::Filter { predicate, .. } => has_int128(predicate),
        IR::Select { exprs, .. } | IR::HStack { exprs, .. } => {
            any_named_has_int128(exprs.as_slice())
        }
        IR::Join {
            left_on,
            right_on,
            ..
        } => any_has_int128(left_on.as_slice()) || any_has_int128(right_on.as_slice()),
        IR::DataFrameScan { .. }
        | IR::SimpleProjection { .. }
        | IR::MapFunction { .. }
        | IR::Union { .. }
        | IR::Sort { .. } => false,
    }
}

/// Whether a column of some fields has the type Int128.
pub fn fields_have_int128(fields: &[Field]) -> bool
    ensures { result ≡ list_any field_has_int128 fields.now }
{
    for field in fields {
        if field.dtype == DataType::Int128 {
            return true;
        }
    }
    false
}

/// Whether a column of some frames has the type Int128.
fn frames_have_int128(frames: &[DataFrame]) -> bool
    ensures { result ≡ list_any table_has_int128 frames.now }
{
    for frame in frames {
        if fields_have_int128(frame.schema().fields()) {
            return true;
        }
    }
    false
}

/// Whether a literal of some nodes has the type Int128.
fn nodes_have_int128(nodes: &[IR]) -> bool
    ensures { result ≡ list_any node_has_int128 (map node_of nodes.now) }
{
    for node in nodes {
        if node_has_int128(node) {
            return true;
        }
    }
    false
}

/// Whether a column of a frame or a literal of a node has the type Int128.
pub(crate) fn arena_has_int128(arena: &Arena) -> bool
    ensures { result ≡ plan_has_int128 (plan_of arena.now) }
{
    frames_have_int128(arena.frames.as_slice()) || nodes_have_int128(arena.nodes.as_slice())
}
