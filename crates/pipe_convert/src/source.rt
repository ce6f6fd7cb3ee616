//! The source of a branch.

ghost use Rattle.std.specs.Prelude.{◌≡◌, ◌+◌, ◌^◌, ◌<◌, true, length, IfOk, OnOk};
ghost use Rattle.pipe_plan.specs.Node.{node_of};
ghost use Rattle.pipe_plan.specs.Under.{node_at};
ghost use Rattle.pipe_driver.specs.Branches.{is_scan, is_scan_at};
ghost use Rattle.pipe_convert.specs.Converted.{IsScanOf, IsSourceOf};
ghost use Rattle.pipe_driver.specs.Shape.{Begins, kind_at, kind_of};
ghost use Rattle.pipe_convert.specs.Nodes.{IsUnder, nodes_in};
ghost use Rattle.pipe_convert.specs.Sources.{AreScans, HasFewRows, IsSourceAt, IsUnionOf, taken_at};

use crate::nodes::numbered;
use crate::scan::scan_frame;
use pipe_check::CheckedPlan;
use pipe_frame::DataFrame;
use pipe_plan::IR;
use pipe_source::{DataFrameSource, PhysSource, UnionSource};
use std::alloc::{AllocError, Global};

/// How many rows a source has at most: so many that the numbers of its chunks never end.
const MOST_ROWS: u64 = 4_611_686_018_427_387_903;

/// The frame of a scan that is given.
fn node_frame(plan: &CheckedPlan, n: u32, node: &IR) -> Result<DataFrame, AllocError>
    requires under { IsUnder plan.now n }
    requires is { node_of node.now ≡ node_at (nodes_in plan.now) n }
    requires scan { is_scan (node_of node.now) ≡ true }
    ensures { IfOk result (IsScanOf plan.now n) }
{
    match node {
        IR::DataFrameScan { frame, columns } => Ok(scan_frame(plan, n, *frame, columns)?),
        IR::Filter { .. }
        | IR::SimpleProjection { .. }
        | IR::Select { .. }
        | IR::HStack { .. }
        | IR::MapFunction { .. }
        | IR::Union { .. }
        | IR::Join { .. }
        | IR::Sort { .. } => unreachable!(),
    }
}

/// The source of a scan that has no more than the rows that are left for it. Its chunks share its memory.
fn source_at(plan: &CheckedPlan, n: u32, rows_left: &mut u64) -> Result<DataFrameSource, AllocError>
    requires under { IsUnder plan.now n }
    requires scan { is_scan_at (nodes_in plan.now) n ≡ true }
    ensures source { IfOk result (IsSourceOf plan.now n) }
    ensures rows { IfOk result (λ source. rows_left.new + length source.rows ≡ rows_left.old) }
{
    let frame = node_frame(plan, n, numbered(plan, n))?;
    let rows = frame.height() as u64;
    if rows > *rows_left {
        return Err(AllocError);
    }
    *rows_left -= rows;
    let shared = frame.shared()?;
    Ok(DataFrameSource::from_df(shared))
}

/// The sources of scans, one after another. More than 32 bits count, of scans or twice of rows, is want of memory.
fn union_source(
    alloc: Global,
    plan: &CheckedPlan,
    inputs: &[u32],
) -> Result<UnionSource, AllocError>
    requires scans { AreScans plan.now inputs.now }
    ensures union { IfOk result (IsUnionOf plan.now inputs.now) }
    ensures few { IfOk result (λ source. HasFewRows source.left) }
{
    plan.known_well_formed();
    if inputs.len() > u32::MAX as usize {
        return Err(AllocError);
    }
    let mut sources = Vec::new(alloc);
    let mut rows_left = MOST_ROWS;
    for input in inputs {
        let source = source_at(plan, *input, &mut rows_left)?;
        sources.push(PhysSource::Frame(source))?;
    }
    Ok(UnionSource::new(sources))
}

/// The source of a node that is given.
fn node_source(
    alloc: Global,
    plan: &CheckedPlan,
    n: u32,
    node: &IR,
) -> Result<PhysSource, AllocError>
    requires under { IsUnder plan.now n }
    requires is { node_of node.now ≡ node_at (nodes_in plan.now) n }
    requires begins { kind_of (nodes_in plan.now) (node_of node.now) ≡ Begins }
    ensures { IfOk result (IsSourceAt plan.now n) }
{
    plan.known_well_formed();
    match node {
        IR::DataFrameScan { .. } => {
            let mut rows_left = MOST_ROWS;
            let source = source_at(plan, n, &mut rows_left)?;
            Ok(PhysSource::Frame(source))
        }
        IR::Union { inputs } => {
            let source = union_source(alloc, plan, inputs.as_slice())?;
            Ok(PhysSource::Union(source))
        }
        IR::Filter { .. }
        | IR::SimpleProjection { .. }
        | IR::Select { .. }
        | IR::HStack { .. }
        | IR::MapFunction { .. }
        | IR::Join { .. }
        | IR::Sort { .. } => unreachable!(),
    }
}

/// The source of a branch (polars-pipe's `get_source`): the frame of a scan, or those of a union of scans alone.
pub fn get_source(alloc: Global, plan: &CheckedPlan, n: u32) -> Result<PhysSource, AllocError>
    requires under { IsUnder plan.now n }
    requires begins { kind_at (nodes_in plan.now) n ≡ Begins }
    ensures { IfOk result (IsSourceAt plan.now n) }
{
    node_source(alloc, plan, n, numbered(plan, n))
}

/// The nodes whose rows are taken where a leg begins at a node that is given.
fn taken_nodes(alloc: Global, n: u32, node: &IR) -> Result<Vec<u32>, AllocError>
    ensures { IfOk result (λ nodes. nodes.items ≡ taken_at (node_of node.now) n) }
{
    match node {
        IR::Union { inputs } => Ok(inputs.as_slice().to_vec(alloc)?),
        IR::DataFrameScan { .. }
        | IR::Filter { .. }
        | IR::SimpleProjection { .. }
        | IR::Select { .. }
        | IR::HStack { .. }
        | IR::MapFunction { .. }
        | IR::Join { .. }
        | IR::Sort { .. } => {
            let mut nodes = Vec::new(alloc);
            nodes.push(n)?;
            Ok(nodes)
        }
    }
}

/// The nodes whose rows are taken where a leg begins at a node, in order: its own, or those of a union's inputs.
pub fn source_nodes(alloc: Global, plan: &CheckedPlan, n: u32) -> Result<Vec<u32>, AllocError>
    requires { IsUnder plan.now n }
    ensures { IfOk result (λ nodes. nodes.items ≡ taken_at (node_at (nodes_in plan.now) n) n) }
{
    taken_nodes(alloc, n, numbered(plan, n))
}
