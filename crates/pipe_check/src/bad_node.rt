//! When a node is a bad one: an input isn't smaller, stands twice or is read below; or the node is void.

ghost use Rattle.std.specs.Prelude.{◌≡◌, ℕ, ◌<◌, true, false, nat_le, map, length, IfOk};
ghost use Rattle.pipe_expr.specs.Formula.{named_formula_of};
ghost use Rattle.pipe_plan.specs.Node.{node_of};
ghost use Rattle.pipe_plan.specs.Schemas.{frame_at};
ghost use Rattle.pipe_plan.specs.Faults.{is_empty, names_nothing, is_void_function, is_void};
ghost use Rattle.pipe_check.specs.Checking.{is_marked, is_misread, is_bad_by, is_read_after, IsFrameFull, AreRead};

use crate::inputs::inputs;
use pipe_expr::{FunctionIR, NamedExpr};
use pipe_frame::DataFrame;
use pipe_plan::IR;
use pipe_schema::{List, Text};
use std::alloc::{AllocError, Global};

/// Whether an input of a node isn't smaller than it, or was read before. Else the inputs are marked as read.
#[tactic(auto, using(crate::proofs::Marks::read_rules))]
fn are_misread(read: &mut [bool], n: u32, inputs: &[u32]) -> bool
    requires { n < length read.old }
    ensures bad { result ≡ is_misread read.old n inputs.now }
    ensures marked { result ≡ false → (i : ℕ)
        → is_marked read.new i ≡ is_read_after read.old inputs.now i }
{
    for input in inputs {
        if n <= *input || read[*input as usize] {
            return true;
        }
        read[*input as usize] = true;
    }
    false
}

/// Whether there is no frame of a number. Each frame has a column.
#[tactic(auto, using(crate::proofs::Full::full_rules))]
fn is_frame_missing(frames: &[DataFrame], frame: u32) -> bool
    ensures missing { result ≡ nat_le (length frames.now) frame }
    ensures full { result ≡ false → is_empty (frame_at frames.now frame).schema ≡ false }
{
    match frames.get(frame as usize) {
        Some(frame) => frame.schema().len() == 0,
        None => true,
    }
}

/// Whether a scan names its columns and names none.
fn is_nothing_named(columns: &Option<List<Text>>) -> bool
    ensures { result ≡ names_nothing columns.now }
{
    match columns {
        Some(names) => is_none_there(names.as_slice()),
        None => false,
    }
}

/// Whether a list is empty.
pub(crate) fn is_none_there<T>(items: &[T]) -> bool
    ensures { result ≡ is_empty items.now }
{
    match items.first() {
        Some(_) => false,
        None => true,
    }
}

/// Whether there are no expressions.
fn are_no_exprs(exprs: &[NamedExpr]) -> bool
    ensures { result ≡ is_empty (map named_formula_of exprs.now) }
{
    is_none_there(exprs)
}

/// An unpivot of no column.
fn is_function_void(function: &FunctionIR) -> bool
    ensures { result ≡ is_void_function function.now }
{
    match function {
        FunctionIR::Unpivot { on, .. } => is_none_there(on.as_slice()),
        FunctionIR::Rename { .. } => false,
    }
}

/// A scan of no frame, a union of nothing, an output without columns, an unpivot of no column.
fn is_node_void(frames: &[DataFrame], node: &IR) -> bool
    ensures void { result ≡ is_void frames.now (node_of node.now) }
    ensures full { result ≡ false → IsFrameFull frames.now (node_of node.now) }
{
    match node {
        IR::DataFrameScan { frame, columns } => is_frame_missing(frames, *frame)
            || is_nothing_named(columns),
        IR::SimpleProjection { columns, .. } => is_none_there(columns.as_slice()),
        IR::Select { exprs, .. } => are_no_exprs(exprs.as_slice()),
        IR::MapFunction { function, .. } => is_function_void(function),
        IR::Union { inputs } => is_none_there(inputs.as_slice()),
        IR::Filter { .. } | IR::HStack { .. } | IR::Join { .. } | IR::Sort { .. } => false,
    }
}

/// Whether a node is a bad one. Else its inputs are marked as read.
pub(crate) fn is_node_bad(
    alloc: Global,
    frames: &[DataFrame],
    read: &mut [bool],
    n: u32,
    node: &IR,
) -> Result<bool, AllocError>
    requires { n < length read.old }
    ensures bad { IfOk result (λ bad. bad ≡ is_bad_by read.old frames.now n (node_of node.now)) }
    ensures full { IfOk result (λ bad. bad ≡ false → IsFrameFull frames.now (node_of node.now)) }
    ensures marked { let x = node_of node.now in
        IfOk result (λ bad. bad ≡ false → AreRead true read.old read.new x) }
{
    let numbers = inputs(alloc, node)?;
    Ok(are_misread(read, n, numbers.as_slice()) || is_node_void(frames, node))
}
