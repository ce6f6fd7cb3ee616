//! What the loads of a worker bring to nodes.

ghost use Rattle.std.specs.Prelude.{◌≡◌, [], ◌∷◌, ◌++◌, map, IfOk, OnOk};
ghost use Rattle.pipe_events.specs.Worlds.{mine, carried};
ghost use Rattle.pipe_events.specs.Decided.{is_nil};
ghost use Rattle.pipe_plain.specs.Tables.{at_place};
ghost use Rattle.pipe_world.specs.Staged.{staged};
ghost use Rattle.pipe_world.specs.Shown.{world_of};
ghost use Rattle.pipe_replay.specs.Carried.{load_table, tables_of, gathered};

use pipe_frame::Row;
use pipe_plain::push_rows;
use pipe_schema::List;
use pipe_world::{Load, Progress, StagedPlan, flows_of};
use std::alloc::{AllocError, Global};

/// Whether nothing of a worker is among loads.
pub(crate) fn is_idle(worker: u32, loads: &[Load]) -> bool
    ensures { result ≡ is_nil (mine worker loads.now) }
{
    for load in loads {
        if load.worker() == worker {
            return false;
        }
    }
    true
}

/// What comes out of each node for a load.
fn flows_of_load(
    alloc: Global,
    plan: &StagedPlan,
    bags: &[List<Row>],
    load: &Load,
) -> Result<List<List<Row>>, AllocError>
    ensures { let built = at_place [] bags.now in
        IfOk result (λ flows. flows ≡ load_table (staged plan.now) built load.now) }
{
    flows_of(alloc, plan, bags, load.node(), load.rows())
}

/// Adds what comes out of each node for a load, if it is a worker's.
fn push_flows(
    alloc: Global,
    tables: &mut List<List<List<Row>>>,
    plan: &StagedPlan,
    world: &Progress,
    worker: u32,
    load: &Load,
) -> Result<(), AllocError>
    ensures { let flows = load_table (staged plan.now) (world_of world.now).bag in
        let more = map flows (mine worker (load.now ∷ [])) in
        OnOk result (tables.new ≡ tables.old ++ more) }
{
    if load.worker() == worker {
        tables.push(flows_of_load(alloc, plan, world.bags(), load)?)?;
    }
    Ok(())
}

/// What comes out of each node for each load of a worker.
pub fn carried_tables(
    alloc: Global,
    plan: &StagedPlan,
    world: &Progress,
    worker: u32,
) -> Result<List<List<List<Row>>>, AllocError>
    ensures { let w = world_of world.now in
        IfOk result (λ tables. tables ≡ tables_of (staged plan.now) w worker) }
{
    let mut tables = List::new(alloc);
    let loads = world.pending();
    for load in loads {
        push_flows(alloc, &mut tables, plan, world, worker, load)?;
    }
    Ok(tables)
}

/// The rows of a node, none where there is none.
fn rows_at(tables: &[List<Row>], n: usize) -> &[Row]
    ensures { result.now ≡ at_place [] tables.now n }
{
    match tables.get(n) {
        Some(rows) => rows.as_slice(),
        None => &[],
    }
}

/// What comes to a node in all tables.
pub fn gathered_rows(
    alloc: Global,
    tables: &[List<List<Row>>],
    t: usize,
) -> Result<List<Row>, AllocError>
    ensures { IfOk result (λ rows. rows ≡ gathered tables.now t) }
{
    let mut rows = List::new(alloc);
    for flows in tables {
        push_rows(&mut rows, rows_at(flows.as_slice(), t))?;
    }
    Ok(rows)
}

/// What the loads of a worker bring to a node.
#[tactic(auto, using(crate::proofs::CarriedLemmas::carried_rules))]
pub fn carried_rows(
    alloc: Global,
    plan: &StagedPlan,
    world: &Progress,
    worker: u32,
    t: usize,
) -> Result<List<Row>, AllocError>
    ensures { let w = world_of world.now in
        let loads = mine worker w.pending in
        IfOk result (λ rows. rows ≡ carried (staged plan.now) w.bag loads t) }
{
    let tables = carried_tables(alloc, plan, world, worker)?;
    gathered_rows(alloc, tables.as_slice(), t)
}
