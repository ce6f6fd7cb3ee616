//! Plans that were checked.

ghost use Rattle.std.specs.Prelude.{◌≡◌, true, None, Some, is_some, slice_index_or, IfOk, IfErr, OnOk};
ghost use Rattle.pipe_plan.specs.Plan.{plan_of};
ghost use Rattle.pipe_plan.specs.Under.{is_under};
ghost use Rattle.pipe_plan.specs.Schemas.{schema_of};
ghost use Rattle.pipe_plan.specs.Faults.{IsWellFormed};
ghost use Rattle.pipe_check.specs.Checked.{MemoryOr, check_fault};

use crate::check::checked_schemas;
use pipe_plan::{Arena, PipeError};
use pipe_schema::{List, Schema};
use std::alloc::Global;
use std::marker::Model;

/// The schema that is kept for a node, where one is.
fn schema_at(schemas: &[Option<Schema>], n: u32) -> &Schema
    requires { is_some (slice_index_or schemas.now n None) ≡ true }
    ensures { Some result.now ≡ slice_index_or schemas.now n None }
{
    match schemas.get(n as usize) {
        Some(Some(schema)) => schema,
        _ => unreachable!(),
    }
}

/// How many nodes a plan may have.
const MOST_NODES: usize = 4096;

/// A well-formed plan: an arena and its root, with the output schema of each node under the root.
#[derive(Drop)]
pub struct CheckedPlan<'a> {
    arena: &'a Arena,
    root: u32,
    schemas: List<Option<Schema>>,
}

impl<'a> Model for CheckedPlan<'a> {
    ghost use Rattle.pipe_check.specs.Checked.{Checked, IsChecked};
    ghost use Rattle.pipe_expr.specs.contracts.expr.Expr as expr;
    ghost use Rattle.std.specs.Coded.{codes};

    ghost Value = { Checked };

    ghost coded = { Prim.hlevel (codes, expr.the_row.coded) };

    ghost view = { λ c. record { arena = c.arena.now; root = c.root } };

    ghost invariant = { λ c. IsChecked c.arena.now c.root c.schemas };
}

impl<'a> CheckedPlan<'a> {
    /// The arena that was checked.
    pub fn arena(&self) -> &'a Arena
        ensures arena { result.now ≡ self.now.arena }
        ensures good { IsWellFormed (plan_of self.now.arena) self.now.root }
    {
        self.arena
    }

    /// The root that was checked.
    pub fn root(&self) -> u32
        ensures root { result ≡ self.now.root }
        ensures under { is_under (plan_of self.now.arena).nodes self.now.root self.now.root ≡ true }
        ensures good { IsWellFormed (plan_of self.now.arena) self.now.root }
    {
        self.root
    }

    /// Tells what was checked, for the proof of a caller that only borrows the plan: that it is well-formed. It does
    /// nothing when it runs.
    pub fn known_well_formed(&self)
        ensures { IsWellFormed (plan_of self.now.arena) self.now.root }
    {
        let _ = self.root();
    }

    /// The output schema of a node under the root.
    pub fn schema(&self, n: u32) -> &Schema
        requires { is_under (plan_of self.now.arena).nodes self.now.root n ≡ true }
        ensures { result.now ≡ schema_of (plan_of self.now.arena) n }
    {
        schema_at(self.schemas.as_slice(), n)
    }
}

/// The plan of an arena and a root, checked. `TooMany` where the arena has more than 4,096 nodes; else the plan's
/// fault: that of the least node under the root, and there the least error.
pub fn check_plan<'a>(
    alloc: Global,
    arena: &'a Arena,
    root: u32,
) -> Result<CheckedPlan<'a>, PipeError>
    ensures plan { IfOk result (λ plan. plan ≡ record { arena = arena.now; root = root }) }
    ensures good { OnOk result (IsWellFormed (plan_of arena.now) root) }
    ensures err { IfErr result (MemoryOr (check_fault (plan_of arena.now) root)) }
{
    if arena.nodes.len() > MOST_NODES {
        return Err(PipeError::TooMany(MOST_NODES as u32));
    }
    if arena.nodes.len() <= root as usize {
        return Err(PipeError::BadNode(root));
    }
    let schemas = checked_schemas(alloc, arena, root)?;
    Ok(CheckedPlan {
        arena,
        root,
        schemas,
    })
}
