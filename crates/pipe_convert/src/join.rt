//! The settings of a node's join.

ghost use Rattle.std.specs.Prelude.{◌≡◌, IfOk};
ghost use Rattle.std.specs.List.{AllByRecursion};
ghost use Rattle.pipe_expr.specs.Formula.{formula_of, formulas_of};
ghost use Rattle.pipe_expr.specs.Typing.{IsTyped};
ghost use Rattle.pipe_plan.specs.Node as node;
ghost use Rattle.pipe_plan.specs.Schemas.{join_over};
ghost use Rattle.pipe_plan.specs.Swap.{swaps};
ghost use Rattle.pipe_table.specs.Spec.{IsSpec, IsMadeFor, settings_of, formula_in, formulas_in};
ghost use Rattle.pipe_convert.specs.Converted.{IsNode, schema_in};
ghost use Rattle.pipe_convert.specs.Keys.{AreKeys};

use pipe_check::{CheckedPlan, is_coalescing};
use pipe_expr::{Expr, NamedExpr, PhysicalExpr, to_physical};
use pipe_plan::{JoinOptions, swap_join_order};
use pipe_schema::{List, Schema, Text, TryClone};
use pipe_table::JoinSpec;
use std::alloc::{AllocError, Global};

/// A key, made for its side's schema. No column has its name.
fn key_expr(alloc: Global, key: &Expr, schema: &Schema) -> Result<PhysicalExpr, AllocError>
    requires { IsTyped (formula_of key.now) schema.now }
    ensures formula { IfOk result (λ made. formula_in made ≡ formula_of key.now) }
    ensures schema { IfOk result (λ made. made.schema ≡ schema.now) }
{
    let named = NamedExpr {
        name: Text::from_str(alloc, "key")?,
        expr: key.try_clone()?,
    };
    to_physical(alloc, &named, schema)
}

/// The keys of a side, made for its schema.
fn key_exprs(
    alloc: Global,
    keys: &[Expr],
    schema: &Schema,
) -> Result<List<PhysicalExpr>, AllocError>
    requires { AreKeys schema.now (formulas_of keys.now) }
    ensures made { IfOk result (AllByRecursion (IsMadeFor schema.now)) }
    ensures same { IfOk result (λ made. formulas_in made ≡ formulas_of keys.now) }
{
    let mut made = List::new(alloc);
    for key in keys {
        made.push(key_expr(alloc, key, schema)?)?;
    }
    Ok(made)
}

/// The settings of a join, whose right side is built where `swap_join_order` says so.
pub fn join_spec(
    alloc: Global,
    plan: &CheckedPlan,
    n: u32,
    left: u32,
    right: u32,
    left_on: &[Expr],
    right_on: &[Expr],
    options: &JoinOptions,
) -> Result<JoinSpec, AllocError>
    requires { IsNode plan.now n
        (node.Join left right (formulas_of left_on.now) (formulas_of right_on.now) options.now) }
    ensures good { IfOk result IsSpec }
    ensures settings { let left_schema = schema_in plan.now left in
        let right_schema = schema_in plan.now right in
        let left_keys = formulas_of left_on.now in
        let right_keys = formulas_of right_on.now in
        IfOk result (λ spec. settings_of spec
        ≡ join_over left_schema right_schema left_keys right_keys options.now) }
    ensures side { IfOk result (λ spec. spec.swapped ≡ swaps options.now) }
{
    plan.known_well_formed();
    let _ = plan.schema(n).fields();
    let left_schema = plan.schema(left);
    let right_schema = plan.schema(right);
    let _ = left_schema.fields();
    let _ = right_schema.fields();
    Ok(JoinSpec {
        how: options.how,
        join_nulls: options.join_nulls,
        coalesced: is_coalescing(options),
        swapped: swap_join_order(options),
        suffix: options.suffix.try_clone()?,
        left_schema: left_schema.try_clone()?,
        right_schema: right_schema.try_clone()?,
        left_keys: key_exprs(alloc, left_on, left_schema)?,
        right_keys: key_exprs(alloc, right_on, right_schema)?,
    })
}
