//! Operators of a plan's root: what each gives for the rows that its input scans, as one chunk.

ghost use Rattle.std.specs.Prelude.{◌≡◌, true, IfOk};
ghost use Rattle.pipe_expr.specs.Formula.{named_formulas_of};
ghost use Rattle.pipe_plan.specs.Node.{node_of};
ghost use Rattle.pipe_plan.specs.Node as node;
ghost use Rattle.pipe_plan.specs.Plan.{plan_of};
ghost use Rattle.pipe_plan.specs.Under.{is_under, node_at};
ghost use Rattle.pipe_convert.specs.Converted.{IsNode, schema_in};
ghost use Rattle.worked_operators.specs.Planned.{IsChunkOrNone};

use crate::operators::told::answer_lines;
use pipe_check::{CheckedPlan, check_plan};
use pipe_convert::{function_operator, hstack_operator, scan_frame};
use pipe_expr::{FunctionIR, NamedExpr};
use pipe_frame::{DataChunk, DataFrame};
use pipe_ops::{Operator, PExecutionContext};
use pipe_plan::{IR, PipeError};
use std::alloc::{AllocError, Global};
use worked_builders::{BuiltPlan, WrittenNode, plan_of};

/// The most rows of a chunk.
const MOST: usize = 4_294_967_294;

/// The numbers of a run.
fn context() -> PExecutionContext {
    PExecutionContext {
        workers: 1,
        chunk_rows: 10,
        row_limit: 100,
    }
}

/// The node of a number that is under the root.
fn numbered<'a>(plan: &CheckedPlan<'a>, n: u32) -> &'a IR
    requires { is_under (plan_of plan.now.arena).nodes plan.now.root n ≡ true }
    ensures { node_of result.now ≡ node_at (plan_of plan.now.arena).nodes n }
{
    plan.known_well_formed();
    &plan.arena().nodes.as_slice()[n as usize]
}

/// A frame as a chunk, none where it has too many rows.
fn chunk_or_none(frame: DataFrame) -> Option<DataChunk>
    ensures { IsChunkOrNone frame.schema result }
{
    if frame.height() > MOST {
        None
    } else {
        Some(DataChunk::new(7, frame))
    }
}

/// The chunk of a scan, none where the node is no scan or its frame has too many rows.
fn scanned(plan: &CheckedPlan, n: u32) -> Result<Option<DataChunk>, AllocError>
    requires { is_under (plan_of plan.now.arena).nodes plan.now.root n ≡ true }
    ensures { IfOk result (IsChunkOrNone (schema_in plan.now n)) }
{
    match numbered(plan, n) {
        IR::DataFrameScan { frame, columns } => {
            let frame = scan_frame(plan, n, *frame, columns)?;
            Ok(chunk_or_none(frame))
        }
        _ => Ok(None),
    }
}

/// What an extension gives.
fn extended(
    alloc: Global,
    plan: &CheckedPlan,
    n: u32,
    input: u32,
    exprs: &[NamedExpr],
) -> Result<String, AllocError>
    requires { IsNode plan.now n (node.HStack input (named_formulas_of exprs.now)) }
{
    plan.known_well_formed();
    let mut operator = hstack_operator(alloc, plan, n, input, exprs)?;
    let scan = scanned(plan, input)?;
    let Some(chunk) = scan else {
        return String::from_str(alloc, "no scan\n");
    };
    let answer = operator.execute(alloc, &context(), &(), &chunk)?;
    answer_lines(alloc, &answer)
}

/// What a function gives.
fn mapped(
    alloc: Global,
    plan: &CheckedPlan,
    n: u32,
    input: u32,
    function: &FunctionIR,
) -> Result<String, AllocError>
    requires { IsNode plan.now n (node.MapFunction input function.now) }
{
    plan.known_well_formed();
    let mut operator = function_operator(alloc, plan, n, input, function, 1)?;
    let scan = scanned(plan, input)?;
    let Some(chunk) = scan else {
        return String::from_str(alloc, "no scan\n");
    };
    let answer = operator.execute(alloc, &context(), &(), &chunk)?;
    answer_lines(alloc, &answer)
}

/// What the root's operator gives.
fn root_lines(alloc: Global, plan: &CheckedPlan) -> Result<String, AllocError> {
    let root = plan.root();
    match numbered(plan, root) {
        IR::HStack { input, exprs } => extended(alloc, plan, root, *input, exprs.as_slice()),
        IR::MapFunction { input, function } => mapped(alloc, plan, root, *input, function),
        _ => String::from_str(alloc, "another node\n"),
    }
}

/// What the operator of a built plan's root gives.
fn built_lines(alloc: Global, plan: &BuiltPlan) -> Result<String, AllocError> {
    match check_plan(alloc, &plan.arena, plan.root) {
        Ok(checked) => root_lines(alloc, &checked),
        Err(PipeError::Memory) => Err(AllocError),
        Err(_) => String::from_str(alloc, "refused\n"),
    }
}

/// What the operator of a plan's root gives.
pub(crate) fn planned(
    alloc: Global,
    shows: &str,
    nodes: &[WrittenNode],
) -> Result<String, AllocError> {
    let plan = plan_of(alloc, nodes)?;
    let lines = built_lines(alloc, &plan)?;
    format!(in alloc; "# {shows}\n{lines}")
}
