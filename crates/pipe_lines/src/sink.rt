//! The sinks of places.

ghost use Rattle.std.specs.Prelude.{◌≡◌, ◌<◌, true, IfOk};
ghost use Rattle.pipe_driver.specs.declared.branch.SinkAt.TheVariants as at;
ghost use Rattle.pipe_convert.specs.Joins.{AreSpecs};
ghost use Rattle.pipe_lines.specs.Made.{IsSinkAt, IsSortAt, sorts_rows};
ghost use Rattle.pipe_plan.specs.Node.{node_of};
ghost use Rattle.pipe_plan.specs.Under.{node_at};
ghost use Rattle.pipe_convert.specs.Nodes.{IsUnder, nodes_in, meaning_in};
ghost use Rattle.pipe_convert.specs.Steps.{IsThere};

use crate::settings::settings_of;
use pipe_check::CheckedPlan;
use pipe_convert::{numbered, sort_sink};
use pipe_driver::SinkAt;
use pipe_expr::JoinType;
use pipe_plan::IR;
use pipe_probe::CrossJoin;
use pipe_rows::KeyHasher;
use pipe_schema::TryClone;
use pipe_slots::PhysSink;
use pipe_sort::SortSink;
use pipe_source::OrderedSink;
use pipe_table::{GenericBuild, JoinSpec};
use std::alloc::{AllocError, Global};
use std::sync::Arc;

/// The sink of the side of a join that is built.
fn build_sink<H: KeyHasher>(
    alloc: Global,
    plan: &CheckedPlan,
    specs: &[Option<Arc<JoinSpec>>],
    n: u32,
    parts: u32,
    hasher: H,
) -> Result<PhysSink<H>, AllocError>
    requires specs { AreSpecs plan.now specs.now }
    requires join { (meaning_in plan.now).is_join n ≡ true }
    requires parts { 0 < parts }
    ensures { IfOk result (IsSinkAt plan.now specs.now hasher parts (at.Build n)) }
{
    plan.known_well_formed();
    let Some(spec) = settings_of(specs, n) else {
        unreachable!()
    };
    match spec.how {
        JoinType::Cross => {
            let schema = spec.built_schema().try_clone()?;
            Ok(PhysSink::Cross(CrossJoin::new(alloc, schema, n)))
        }
        JoinType::Inner | JoinType::Left | JoinType::Full | JoinType::Semi | JoinType::Anti => {
            let build = GenericBuild::new(alloc, spec.clone()?, n, parts, hasher)?;
            Ok(PhysSink::Build(build))
        }
    }
}

/// The sink of a sort that is given.
fn sort_at(alloc: Global, plan: &CheckedPlan, n: u32, node: &IR) -> Result<SortSink, AllocError>
    requires under { IsUnder plan.now n }
    requires is { node_of node.now ≡ node_at (nodes_in plan.now) n }
    requires sorts { sorts_rows (node_of node.now) ≡ true }
    ensures { IfOk result (IsSortAt plan.now n) }
{
    plan.known_well_formed();
    match node {
        IR::Sort { input, by, options } => { Ok(sort_sink(alloc, plan, n, *input, by, options)?) }
        IR::DataFrameScan { .. }
        | IR::Filter { .. }
        | IR::SimpleProjection { .. }
        | IR::Select { .. }
        | IR::HStack { .. }
        | IR::MapFunction { .. }
        | IR::Union { .. }
        | IR::Join { .. } => unreachable!(),
    }
}

/// The sink of a place (polars-pipe's `get_sink`): of the root, of a sort, or of the side of a join that is built, in so
/// many partitions.
pub fn get_sink<H: KeyHasher>(
    alloc: Global,
    plan: &CheckedPlan,
    specs: &[Option<Arc<JoinSpec>>],
    at: SinkAt,
    parts: u32,
    hasher: H,
) -> Result<PhysSink<H>, AllocError>
    requires specs { AreSpecs plan.now specs.now }
    requires there { IsThere (meaning_in plan.now) at }
    requires parts { 0 < parts }
    ensures { IfOk result (IsSinkAt plan.now specs.now hasher parts at) }
{
    let root = plan.root();
    match at {
        SinkAt::Ordered => {
            let schema = plan.schema(root).try_clone()?;
            Ok(PhysSink::Ordered(OrderedSink::new(alloc, schema)))
        }
        SinkAt::Sort(n) => Ok(PhysSink::Sort(sort_at(alloc, plan, n, numbered(plan, n))?)),
        SinkAt::Build(n) => build_sink(alloc, plan, specs, n, parts, hasher),
    }
}
