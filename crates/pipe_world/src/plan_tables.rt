//! What a plan's stages are made from.

ghost use Rattle.std.specs.Prelude.{◌≡◌, ◌≤◌, map, length, IfOk};
ghost use Rattle.std.specs.List.{range_with_len};
ghost use Rattle.pipe_plan.specs.Node.{node_of};
ghost use Rattle.pipe_plan.specs.Plan.{plan_of};
ghost use Rattle.pipe_plan.specs.Faults.{most_nodes};
ghost use Rattle.pipe_plan.specs.Under.{is_under};
ghost use Rattle.pipe_world.specs.Staged.{scan_of, AreTables};

use pipe_frame::{DataFrame, Row};
use pipe_plain::{is_below, plan_schemas, scanned_rows};
use pipe_plan::{Arena, IR};
use pipe_schema::{Field, List};
use std::alloc::{AllocError, Global};

/// What the stages of a plan refer to beside its nodes: the root, and for each node whether it is under the root, its
/// schema, and its rows where it is a scan.
#[derive(Debug)]
pub struct PlanTables {
    pub root: u32,
    pub under: List<bool>,
    pub schemas: List<List<Field>>,
    pub scans: List<List<Row>>,
}

impl Drop for PlanTables {
    fn drop(self) {
        let PlanTables {
            root: _,
            under,
            schemas,
            scans,
        } = self;
        drop(under);
        drop(schemas);
        drop(scans);
    }
}

/// For each node, whether it is under the root.
fn under_marks(alloc: Global, nodes: &[IR], root: u32) -> Result<List<bool>, AllocError>
    requires { length nodes.now ≤ most_nodes }
    ensures { let marks_of = is_under (map node_of nodes.now) root in
        IfOk result (λ marks. marks ≡ map marks_of (range_with_len 0 (length nodes.now))) }
{
    let mut marks = List::new(alloc);
    for n in 0..nodes.len() {
        marks.push(is_below(alloc, nodes, root, n as u32)?)?;
    }
    Ok(marks)
}

/// The rows of a node, where it is a scan.
fn scan_rows_of(alloc: Global, frames: &[DataFrame], node: &IR) -> Result<List<Row>, AllocError>
    ensures { IfOk result (λ rows. rows ≡ scan_of frames.now (node_of node.now)) }
{
    match node {
        IR::DataFrameScan { frame, columns } => scanned_rows(alloc, frames, *frame, columns),
        IR::Filter { .. } => Ok(List::new(alloc)),
        IR::SimpleProjection { .. } => Ok(List::new(alloc)),
        IR::Select { .. } => Ok(List::new(alloc)),
        IR::HStack { .. } => Ok(List::new(alloc)),
        IR::MapFunction { .. } => Ok(List::new(alloc)),
        IR::Union { .. } => Ok(List::new(alloc)),
        IR::Join { .. } => Ok(List::new(alloc)),
        IR::Sort { .. } => Ok(List::new(alloc)),
    }
}

/// The rows of each scan.
fn all_scans(
    alloc: Global,
    frames: &[DataFrame],
    nodes: &[IR],
) -> Result<List<List<Row>>, AllocError>
    ensures { let nodes = map node_of nodes.now in
        IfOk result (λ scans. scans ≡ map (scan_of frames.now) nodes) }
{
    let mut scans = List::new(alloc);
    for node in nodes {
        scans.push(scan_rows_of(alloc, frames, node)?)?;
    }
    Ok(scans)
}

impl PlanTables {
    /// The tables of a plan.
    pub fn of(alloc: Global, arena: &Arena, root: u32) -> Result<PlanTables, AllocError>
        requires few { length arena.now.nodes ≤ most_nodes }
        ensures root { IfOk result (λ tables. tables.root ≡ root) }
        ensures tables { IfOk result (AreTables (plan_of arena.now)) }
    {
        let under = under_marks(alloc, arena.nodes.as_slice(), root)?;
        let schemas = plan_schemas(alloc, arena)?;
        let scans = all_scans(alloc, arena.frames.as_slice(), arena.nodes.as_slice())?;
        Ok(PlanTables {
            root,
            under,
            schemas,
            scans,
        })
    }
}
