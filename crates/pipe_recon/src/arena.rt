//! The plan of a reconciliation: the full join of the codes and row numbers of both sides.

ghost use Rattle.std.specs.Prelude.{◌≡◌, ◌∷◌, [], ◌≤◌, length, map, IfOk, None, OnOk};
ghost use Rattle.pipe_expr.specs.Formula.{Column, formula_of};
ghost use Rattle.pipe_plan.specs.Faults.{IsWellFormed};
ghost use Rattle.pipe_plan.specs.Node.{DataFrameScan, node_of};
ghost use Rattle.pipe_plan.specs.Plan.{plan_of};
ghost use Rattle.pipe_recon.specs.JoinPlan.{hint, join, join_plan, join_root, left_table, options, right_table};

use crate::coded::coded_frame;
use pipe_column::BinaryColumn;
use pipe_expr::{Expr, JoinCoalesce, JoinType};
use pipe_frame::DataFrame;
use pipe_plan::{Arena, IR, JoinOptions, RowsHint};
use pipe_schema::{List, Text};
use std::alloc::{AllocError, Global};

/// A column, as a key.
fn key(alloc: Global, name: &str) -> Result<List<Expr>, AllocError>
    ensures { IfOk result (λ on. map formula_of on ≡ Column name.now ∷ []) }
{
    let mut on = List::new(alloc);
    on.push(Expr::Col(Text::from_str(alloc, name)?))?;
    Ok(on)
}

/// How many rows a side has is known.
fn hint(rows: usize) -> RowsHint
    ensures { result ≡ hint rows }
{
    RowsHint {
        known: Some(rows as u64),
        estimate: rows as u64,
    }
}

fn options(alloc: Global, left: usize, right: usize) -> Result<JoinOptions, AllocError>
    ensures { IfOk result (λ made. made ≡ options left right) }
{
    Ok(JoinOptions {
        how: JoinType::Full,
        join_nulls: false,
        coalesce: JoinCoalesce::KeepColumns,
        suffix: Text::from_str(alloc, "_right")?,
        rows_left: hint(left),
        rows_right: hint(right),
    })
}

/// The join of the scans of both frames.
fn join(alloc: Global, left: usize, right: usize) -> Result<IR, AllocError>
    ensures { IfOk result (λ made. node_of made ≡ join left right) }
{
    let left_on = key(alloc, "left_key")?;
    let right_on = key(alloc, "right_key")?;
    Ok(IR::Join {
        left: 0,
        right: 1,
        left_on,
        right_on,
        options: options(alloc, left, right)?,
    })
}

/// The nodes: a scan of each frame, and their join.
fn nodes(alloc: Global, left: usize, right: usize) -> Result<List<IR>, AllocError>
    ensures { IfOk result (λ made. map node_of made
        ≡ DataFrameScan 0 None ∷ DataFrameScan 1 None ∷ join left right ∷ []) }
{
    let mut nodes = List::new(alloc);
    nodes.push(IR::DataFrameScan {
        frame: 0,
        columns: None,
    })?;
    nodes.push(IR::DataFrameScan {
        frame: 1,
        columns: None,
    })?;
    nodes.push(join(alloc, left, right)?)?;
    Ok(nodes)
}

/// The frames of both sides. The scans of them take no memory for cells.
fn frames(
    alloc: Global,
    lefts: BinaryColumn,
    rights: BinaryColumn,
) -> Result<List<DataFrame>, AllocError>
    requires few_left { length lefts ≤ 4294967294 }
    requires few_right { length rights ≤ 4294967294 }
    ensures { IfOk result (λ made. made ≡ left_table lefts ∷ right_table rights ∷ []) }
{
    let left = coded_frame(alloc, "left_key", "left_row", lefts)?;
    let right = coded_frame(alloc, "right_key", "right_row", rights)?;
    let mut frames = List::new(alloc);
    frames.push(left.shared()?)?;
    frames.push(right.shared()?)?;
    Ok(frames)
}

/// The plan of the full join of both sides, by their codes: scans 0 and 1, and the join 2, which isn't refused.
#[tactic(auto, using(crate::proofs::Formed::join_formed), unfolding(crate::specs::JoinPlan::join_plan))]
pub fn join_arena(
    alloc: Global,
    lefts: BinaryColumn,
    rights: BinaryColumn,
) -> Result<Arena, AllocError>
    requires few_left { length lefts ≤ 4294967294 }
    requires few_right { length rights ≤ 4294967294 }
    ensures plan { IfOk result (λ arena. plan_of arena ≡ join_plan lefts rights) }
    ensures formed { OnOk result (IsWellFormed (join_plan lefts rights) join_root) }
{
    let nodes = nodes(alloc, lefts.len(), rights.len())?;
    let frames = frames(alloc, lefts, rights)?;
    Ok(Arena { nodes, frames })
}
