//! The stages of a plan.

ghost use Rattle.std.specs.Prelude.{◌≡◌, ◌<◌, [], map, take, length, if◌then◌else◌};
ghost use Rattle.pipe_expr.specs.Formula.{formula_of};
ghost use Rattle.pipe_plan.specs.Node.{node_of};
ghost use Rattle.pipe_plan.specs.Plan.{plan_of};
ghost use Rattle.pipe_events.specs.Stages as stages;
ghost use Rattle.pipe_events.specs.PlanStages.{join_stage, stage_of, stage_at};
ghost use Rattle.pipe_plain.specs.Tables.{at_place};
ghost use Rattle.pipe_world.specs.StageValues.{op_value, join_value, stage_value};
ghost use Rattle.pipe_world.specs.Staged.{staged, scan_of, AreTables};

use crate::flows::rows_at;
use crate::plan_tables::PlanTables;
use crate::reach::is_marked;
use crate::stage::{JoinStage, RowOp, Stage};
use pipe_expr::Expr;
use pipe_frame::{DataFrame, Row};
use pipe_pairs::Sides;
use pipe_plan::{Arena, IR, JoinOptions, swap_join_order};
use pipe_schema::{Field, List};
use std::marker::Model;

/// The stages of a plan under its root, each made when it is asked for, and for how many workers and partitions they
/// are.
#[derive(Drop)]
pub struct StagedPlan<'a> {
    arena: &'a Arena,
    tables: &'a PlanTables,
    workers: u32,
    parts: u32,
}

impl<'a> Model for StagedPlan<'a> {
    ghost use Rattle.pipe_plan.specs.Plan.{plan_of};
    ghost use Rattle.pipe_world.specs.Staged.{Staging, AreTables};
    ghost use Rattle.pipe_expr.specs.contracts.expr.Expr as expr;
    ghost use Rattle.std.specs.Coded.{codes};

    ghost Value = { Staging };

    ghost coded = { Prim.hlevel (codes, expr.the_row.coded) };

    ghost view = { λ p. record { arena = p.arena.now; root = p.tables.now.root; workers = p.workers; parts = p.parts } };

    ghost invariant = { λ p. AreTables (plan_of p.arena.now) p.tables.now };
}

/// The schema of a node, none of it where there is none.
fn fields_at(schemas: &[List<Field>], n: u32) -> &[Field]
    ensures { result.now ≡ at_place [] schemas.now n }
{
    match schemas.get(n as usize) {
        Some(schema) => schema.as_slice(),
        None => &[],
    }
}

/// What goes row by row over an input.
fn each<'a>(schemas: &'a [List<Field>], input: u32, op: RowOp<'a>) -> Stage<'a>
    ensures { let schema = at_place [] schemas.now input in
        stage_value result ≡ stages.Each input (op_value schema op.entry) }
{
    Stage::Each {
        input,
        schema: fields_at(schemas, input),
        op,
    }
}

/// A join with the side that its options have built.
fn joined<'a>(
    schemas: &'a [List<Field>],
    left: u32,
    right: u32,
    left_on: &'a List<Expr>,
    right_on: &'a List<Expr>,
    options: &'a JoinOptions,
) -> JoinStage<'a>
    ensures { let schema = at_place [] schemas.now in
        let left_keys = map formula_of left_on.now in
        let right_keys = map formula_of right_on.now in
        join_value result ≡ join_stage schema left right left_keys right_keys options.now }
{
    let right_built = swap_join_order(options);
    JoinStage {
        sides: Sides {
            left: fields_at(schemas, left),
            right: fields_at(schemas, right),
            left_on: left_on.as_slice(),
            right_on: right_on.as_slice(),
            options,
        },
        right_built,
        probe: if right_built { left } else { right },
        build: if right_built { right } else { left },
    }
}

/// The stage of a node over the schemas of the nodes below it, with its rows where it is a scan.
fn stage_over<'a>(
    frames: &'a [DataFrame],
    node: &'a IR,
    schemas: &'a [List<Field>],
    scan: &'a [Row],
) -> Stage<'a>
    requires { scan.now ≡ scan_of frames.now (node_of node.now) }
    ensures { let schema = at_place [] schemas.now in
        stage_value result ≡ stage_of frames.now schema (node_of node.now) }
{
    match node {
        IR::DataFrameScan { .. } => Stage::Scan(scan),
        IR::Filter { input, predicate } => each(schemas, *input, RowOp::Filter(predicate)),
        IR::SimpleProjection { input, columns } => each(schemas, *input, RowOp::Columns(columns)),
        IR::Select { input, exprs } => each(schemas, *input, RowOp::Select(exprs)),
        IR::HStack { input, exprs } => each(schemas, *input, RowOp::HStack(exprs)),
        IR::MapFunction { input, function } => each(schemas, *input, RowOp::Function(function)),
        IR::Union { inputs } => Stage::Union(inputs.as_slice()),
        IR::Join {
            left,
            right,
            left_on,
            right_on,
            options,
        } => Stage::Joined(joined(schemas, *left, *right, left_on, right_on, options)),
        IR::Sort { input, by, options } => Stage::Sort {
            input: *input,
            schema: fields_at(schemas, *input),
            by,
            options,
        },
    }
}

/// A stage, if its node is under the root, else a union of nothing.
fn stage_if<'a>(under: bool, stage: Stage<'a>) -> Stage<'a>
    ensures { stage_value result ≡ (if under then stage_value stage.entry else stages.Union []) }
{
    if under { stage } else { Stage::Union(&[]) }
}

/// The first schemas, so many.
fn first_schemas(schemas: &[List<Field>], k: usize) -> &[List<Field>]
    ensures { result.now ≡ take k schemas.now }
{
    if k < schemas.len() {
        &schemas[..k]
    } else {
        schemas
    }
}

/// The stage of a node.
fn stage_of_number<'a>(arena: &'a Arena, tables: &'a PlanTables, k: usize) -> Stage<'a>
    requires tables { AreTables (plan_of arena.now) tables.now }
    requires within { k < length arena.now.nodes }
    ensures { stage_value result ≡ stage_at (plan_of arena.now) tables.now.root k }
{
    let nodes = arena.nodes.as_slice();
    let frames = arena.frames.as_slice();
    let marks = tables.under.as_slice();
    let all = tables.schemas.as_slice();
    let scans = tables.scans.as_slice();
    let under = is_marked(marks, k);
    let schemas = first_schemas(all, k);
    let scan = rows_at(scans, k);
    let stage = stage_over(frames, &nodes[k], schemas, scan);
    stage_if(under, stage)
}

impl<'a> StagedPlan<'a> {
    /// The stages of a plan with these tables, for so many workers and partitions.
    pub fn of(arena: &'a Arena, tables: &'a PlanTables, workers: u32, parts: u32) -> StagedPlan<'a>
        requires { AreTables (plan_of arena.now) tables.now }
        ensures { let root = tables.now.root in
            result ≡ record { arena = arena.now; root = root; workers = workers; parts = parts } }
    {
        StagedPlan {
            arena,
            tables,
            workers,
            parts,
        }
    }

    /// How many nodes there are.
    pub fn len(&self) -> usize
        ensures { result ≡ (staged self.now).size }
    {
        self.arena.nodes.len()
    }

    /// The root.
    pub fn root(&self) -> u32
        ensures { result ≡ self.now.root }
    {
        self.tables.root
    }

    /// For how many workers the stages are.
    pub fn workers(&self) -> u32
        ensures { result ≡ self.now.workers }
    {
        self.workers
    }

    /// Into how many partitions keys are parted.
    pub fn parts(&self) -> u32
        ensures { result ≡ self.now.parts }
    {
        self.parts
    }

    /// The stage of a number, a union of nothing where there is none.
    pub fn stage(&self, k: usize) -> Stage<'a>
        ensures { stage_value result ≡ (staged self.now).stage k }
    {
        if k < self.arena.nodes.len() {
            stage_of_number(self.arena, self.tables, k)
        } else {
            Stage::Union(&[])
        }
    }
}
