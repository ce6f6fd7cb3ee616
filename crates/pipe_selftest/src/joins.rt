//! The nodes of a self-test's plan.

ghost use Rattle.std.specs.Prelude.{◌≡◌, ◌∷◌, [], ◌++◌, codes, map, IfOk, OnOk};
ghost use Rattle.pipe_expr.specs.Formula.{Column, formula_of};
ghost use Rattle.pipe_plan.specs.Node.{node_of};
ghost use Rattle.pipe_selftest.specs.Joins.{hint, join, left_scan, nodes, options, right_scan};

use pipe_expr::{Expr, JoinCoalesce, JoinType};
use pipe_plan::{IR, JoinOptions, RowsHint};
use pipe_schema::{List, Text};
use std::alloc::{AllocError, Global};

/// The number of the left frame.
const LEFT_FRAME: u32 = 0;

/// The number of the right frame.
const RIGHT_FRAME: u32 = 1;

/// The column `k`.
fn key(alloc: Global) -> Result<List<Expr>, AllocError>
    ensures { IfOk result (λ on. map formula_of on ≡ Column (codes "k") ∷ []) }
{
    let mut on = List::new(alloc);
    on.push(Expr::Col(Text::from_str(alloc, "k")?))?;
    Ok(on)
}

/// How many rows an input has isn't known, and is estimated well.
fn hint(rows: u32) -> RowsHint
    ensures { result ≡ hint rows }
{
    RowsHint {
        known: None,
        estimate: u64::from(rows),
    }
}

fn options(alloc: Global, how: JoinType, rows: u32) -> Result<JoinOptions, AllocError>
    ensures { IfOk result (λ made. made ≡ options how rows) }
{
    Ok(JoinOptions {
        how,
        join_nulls: false,
        coalesce: JoinCoalesce::JoinSpecific,
        suffix: Text::from_str(alloc, "_right")?,
        rows_left: hint(rows),
        rows_right: hint(rows),
    })
}

/// The join of two nodes on their keys.
fn join(alloc: Global, left: u32, right: u32, how: JoinType, rows: u32) -> Result<IR, AllocError>
    ensures { IfOk result (λ made. node_of made ≡ join left right how rows) }
{
    let left_on = key(alloc)?;
    let right_on = key(alloc)?;
    Ok(IR::Join {
        left,
        right,
        left_on,
        right_on,
        options: options(alloc, how, rows)?,
    })
}

/// Puts scans of the two frames, and the join of both, at the end of nodes.
fn push_join(
    alloc: Global,
    nodes: &mut List<IR>,
    left: u32,
    right: u32,
    how: JoinType,
    rows: u32,
) -> Result<(), AllocError>
    ensures { OnOk result (map node_of nodes.new
        ≡ map node_of nodes.old ++ left_scan ∷ right_scan ∷ join left right how rows ∷ []) }
{
    nodes.push(IR::DataFrameScan {
        frame: LEFT_FRAME,
        columns: None,
    })?;
    nodes.push(IR::DataFrameScan {
        frame: RIGHT_FRAME,
        columns: None,
    })?;
    nodes.push(join(alloc, left, right, how, rows)?)
}

/// The nodes: each join has scans of its own.
pub(crate) fn nodes(alloc: Global, rows: u32) -> Result<List<IR>, AllocError>
    ensures { IfOk result (λ made. map node_of made ≡ nodes rows) }
{
    let mut nodes = List::new(alloc);
    push_join(alloc, &mut nodes, 0, 1, JoinType::Inner, rows)?;
    push_join(alloc, &mut nodes, 3, 4, JoinType::Left, rows)?;
    push_join(alloc, &mut nodes, 6, 7, JoinType::Full, rows)?;
    Ok(nodes)
}
