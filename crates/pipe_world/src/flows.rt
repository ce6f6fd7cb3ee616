//! What comes out of each node where one node has rows of its own.

ghost use Rattle.std.specs.Prelude.{◌≡◌, ◌++◌, [], IfOk, if◌then◌else◌};
ghost use Rattle.std.specs.List.{flat_map};
ghost use Rattle.pipe_events.specs.Stages.{feeds, through, only, flow_at};
ghost use Rattle.pipe_plain.specs.Tables.{table, at_place};
ghost use Rattle.pipe_world.specs.StageValues.{stage_value};
ghost use Rattle.pipe_world.specs.Staged.{staged};

use crate::operators::operated;
use crate::plan::StagedPlan;
use crate::shares::shares;
use crate::stage::Stage;
use pipe_frame::Row;
use pipe_plain::{copied_rows, push_rows};
use pipe_schema::List;
use std::alloc::{AllocError, Global};

/// The rows of a node, none where there is none.
pub fn rows_at(tables: &[List<Row>], n: usize) -> &[Row]
    ensures { result.now ≡ at_place [] tables.now n }
{
    match tables.get(n) {
        Some(rows) => rows.as_slice(),
        None => &[],
    }
}

/// The rows of some nodes, one node after another.
fn united(alloc: Global, tables: &[List<Row>], inputs: &[u32]) -> Result<List<Row>, AllocError>
    ensures { IfOk result (λ made. made ≡ flat_map (at_place [] tables.now) inputs.now) }
{
    let mut made = List::new(alloc);
    for input in inputs {
        push_rows(&mut made, rows_at(tables, *input as usize))?;
    }
    Ok(made)
}

/// What a node makes of what comes to it, over the bags of build sides.
#[tactic(auto, using(crate::proofs::RowByRow::single_rules))]
fn made_of(
    alloc: Global,
    stage: Stage,
    bags: &[List<Row>],
    flows: &[List<Row>],
) -> Result<List<Row>, AllocError>
    ensures { let x = stage_value stage.entry in
        let come = flat_map (at_place [] flows.now) (feeds x) in
        IfOk result (λ made. made ≡ flat_map (through (at_place [] bags.now) x) come) }
{
    match stage {
        Stage::Scan(_) => Ok(List::new(alloc)),
        Stage::Each { input, schema, op } => operated(
            alloc,
            op,
            schema,
            rows_at(flows, input as usize),
        ),
        Stage::Union(inputs) => united(alloc, flows, inputs),
        Stage::Sort { .. } => Ok(List::new(alloc)),
        Stage::Joined(join) => {
            let built = rows_at(bags, join.build as usize);
            shares(alloc, &join, built, rows_at(flows, join.probe as usize))
        }
    }
}

/// Rows of its own, where a node has them, and then those that it made.
fn with_own(
    alloc: Global,
    has_own: bool,
    own: &[Row],
    made: List<Row>,
) -> Result<List<Row>, AllocError>
    ensures { IfOk result (λ rows. rows ≡ (if has_own then own.now else []) ++ made) }
{
    if has_own {
        let mut rows = copied_rows(alloc, own)?;
        push_rows(&mut rows, made.as_slice())?;
        Ok(rows)
    } else {
        Ok(made)
    }
}

/// What comes out of each node, where a node has rows of its own and the build sides have bags.
pub fn flows_of(
    alloc: Global,
    plan: &StagedPlan,
    bags: &[List<Row>],
    node: usize,
    rows: &[Row],
) -> Result<List<List<Row>>, AllocError>
    ensures { let at = flow_at (staged plan.now) (at_place [] bags.now) (only node rows.now) in
        IfOk result (λ flows. flows ≡ table [] at (staged plan.now).size) }
{
    let mut flows = List::new(alloc);
    for k in 0..plan.len() {
        let made = made_of(alloc, plan.stage(k), bags, flows.as_slice())?;
        let all = with_own(alloc, k == node, rows, made)?;
        flows.push(all)?;
    }
    Ok(flows)
}
