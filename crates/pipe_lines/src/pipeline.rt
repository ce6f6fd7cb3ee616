//! The pipelines of branches.

ghost use Rattle.std.specs.Prelude.{◌≡◌, ◌≤◌, map, IfOk};
ghost use Rattle.std.specs.List.{AllByRecursion};
ghost use Rattle.pipe_driver.specs.Branches.{branches as branches_of_plan};
ghost use Rattle.pipe_convert.specs.Laws.{IsBranch};
ghost use Rattle.pipe_convert.specs.Nodes.{plan_in};
ghost use Rattle.pipe_lines.specs.Cuts.{way_in, IsLineFor};
ghost use Rattle.pipe_lines.specs.Layouts.{IsLayout};
ghost use Rattle.pipe_lines.specs.Lines.{HasEnds, IsLineOf, AreLinesOf};

use crate::branch_operators::create_operators;
use crate::branch_sinks::create_sinks;
use crate::layout::Layout;
use crate::pipe_line::PipeLine;
use crate::pipe_nodes::pipe_nodes;
use pipe_check::CheckedPlan;
use pipe_convert::get_source;
use pipe_driver::Branch;
use pipe_engine::PlanLine;
use pipe_rows::KeyHasher;
use std::alloc::{AllocError, Global};

/// The pipeline of a branch (polars-pipe's `create_pipeline`): its source, operators and sinks. Its legs do what the
/// branch says, and its text is the branch's.
pub fn create_pipeline<H: KeyHasher>(
    alloc: Global,
    branch: &Branch,
    plan: &CheckedPlan,
    layout: &Layout<H>,
    workers: u32,
) -> Result<PipeLine<H>, AllocError>
    requires branch { IsBranch plan.now branch.now }
    requires ends { HasEnds branch.now }
    requires layout { IsLayout plan.now layout.now }
    requires workers { 1 ≤ workers }
    ensures line { IfOk result (λ line. IsLineOf plan.now layout.now.specs.items
        layout.now.sinks.items layout.now.hasher layout.now.parts branch.now line.way) }
    ensures workers { IfOk result (IsLineFor workers) }
{
    plan.known_well_formed();
    let source = get_source(alloc, plan, branch.source)?;
    let nodes = pipe_nodes(alloc, plan, branch)?;
    let specs = layout.specs.as_slice();
    let operators = create_operators(alloc, plan, specs, workers, branch.operators.as_slice())?;
    let sinks = create_sinks(alloc, plan, layout, workers, branch.sinks.as_slice())?;
    let line = PipeLine::new(alloc, source, operators, sinks, nodes, workers)?;
    Ok(line)
}

/// The pipelines of a checked plan's branches, in order.
pub fn create_pipelines<H: KeyHasher>(
    alloc: Global,
    branches: &[Branch],
    plan: &CheckedPlan,
    layout: &Layout<H>,
    workers: u32,
) -> Result<Vec<PipeLine<H>>, AllocError>
    requires cut { branches.now ≡ branches_of_plan (plan_in plan.now) plan.now.root }
    requires layout { IsLayout plan.now layout.now }
    requires workers { 1 ≤ workers }
    ensures lines { IfOk result (λ lines. AreLinesOf plan.now layout.now.specs.items
        layout.now.sinks.items layout.now.hasher layout.now.parts branches.now
        (map way_in lines.items)) }
    ensures workers { IfOk result (λ lines. AllByRecursion (IsLineFor workers) lines.items) }
{
    plan.known_well_formed();
    let mut lines = Vec::new(alloc);
    for branch in branches {
        lines.push(create_pipeline(alloc, branch, plan, layout, workers)?)?;
    }
    Ok(lines)
}

/// The legs of pipelines, as they are run.
pub(crate) fn lines_to_run<H: KeyHasher>(
    alloc: Global,
    pipelines: Vec<PipeLine<H>>,
) -> Result<Vec<PlanLine<H>>, AllocError>
    ensures { IfOk result (λ lines. lines.items ≡ map way_in pipelines.items) }
{
    let mut lines = Vec::new(alloc);
    for pipeline in pipelines {
        lines.push(pipeline.into_legs())?;
    }
    Ok(lines)
}
