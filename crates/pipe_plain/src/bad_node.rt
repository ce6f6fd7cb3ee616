//! When a node is a bad one: an input isn't smaller, stands twice or is read below; or the node is void.

ghost use Rattle.std.specs.Prelude.{◌≡◌, ◌==◌, map, nat_le, IfOk};
ghost use Rattle.std.specs.List.{list_any};
ghost use Rattle.pipe_plan.specs.Node.{node_of};
ghost use Rattle.pipe_plan.specs.Plan.{plan_of};
ghost use Rattle.pipe_plan.specs.Under.{node_at};
ghost use Rattle.pipe_plan.specs.Faults.{is_empty, repeats, is_read_below, names_nothing, is_void, is_bad_node};
ghost use Rattle.pipe_plan.specs.Faults.{has_input as node_has_input};
ghost use Rattle.pipe_plan.specs.Faults.{is_reader as reads_under};
ghost use Rattle.pipe_plan.specs.Faults.{is_void_function as is_function_void};

use crate::under::{inputs, is_below};
use pipe_expr::FunctionIR;
use pipe_frame::DataFrame;
use pipe_plan::{Arena, IR};
use pipe_schema::{List, Text};
use std::alloc::{AllocError, Global};

/// Whether a number is among some.
fn is_among(numbers: &[u32], n: u32) -> bool
    ensures { result ≡ list_any (λ m. m == n) numbers.now }
{
    for m in numbers {
        if *m == n {
            return true;
        }
    }
    false
}

/// Whether a number stands twice.
fn is_repeated(numbers: &[u32]) -> bool
    ensures { result ≡ repeats numbers.now }
{
    match numbers.split_first() {
        Some((n, rest)) => is_among(rest, *n) || is_repeated(rest),
        None => false,
    }
}

/// Whether an input isn't smaller than its node.
fn is_any_above(numbers: &[u32], n: u32) -> bool
    ensures { result ≡ list_any (nat_le n) numbers.now }
{
    for i in numbers {
        if n <= *i {
            return true;
        }
    }
    false
}

/// Whether a node has an input.
fn has_input(alloc: Global, nodes: &[IR], m: u32, input: u32) -> Result<bool, AllocError>
    ensures { IfOk result (λ holds. holds ≡ node_has_input (map node_of nodes.now) input m) }
{
    match nodes.get(m as usize) {
        Some(node) => {
            let numbers = inputs(alloc, node)?;
            Ok(is_among(numbers.as_slice(), input))
        }
        None => Ok(false),
    }
}

/// Whether a node under the root has an input.
fn is_reader(
    alloc: Global,
    arena: &Arena,
    root: u32,
    m: u32,
    input: u32,
) -> Result<bool, AllocError>
    ensures { let nodes = map node_of arena.now.nodes in
        IfOk result (λ holds. holds ≡ reads_under nodes root input m) }
{
    let nodes = arena.nodes.as_slice();
    let is_there = is_below(alloc, nodes, root, m)?;
    let has_it = has_input(alloc, nodes, m, input)?;
    Ok(is_there && has_it)
}

/// Whether a smaller node under the root has the input too.
#[tactic(auto, using(crate::proofs::Ranges::range_rules))]
fn is_read(alloc: Global, arena: &Arena, root: u32, n: u32, input: u32) -> Result<bool, AllocError>
    ensures { let nodes = map node_of arena.now.nodes in
        IfOk result (λ holds. holds ≡ is_read_below nodes root n input) }
{
    for m in 0..n {
        if is_reader(alloc, arena, root, m, input)? {
            return Ok(true);
        }
    }
    Ok(false)
}

/// Whether one of some inputs is read by a smaller node too.
fn is_any_read(
    alloc: Global,
    arena: &Arena,
    root: u32,
    n: u32,
    numbers: &[u32],
) -> Result<bool, AllocError>
    ensures { let nodes = map node_of arena.now.nodes in
        IfOk result (λ holds. holds ≡ list_any (is_read_below nodes root n) numbers.now) }
{
    for input in numbers {
        if is_read(alloc, arena, root, n, *input)? {
            return Ok(true);
        }
    }
    Ok(false)
}

/// Whether a scan names its columns and names none.
fn is_nothing_named(columns: &Option<List<Text>>) -> bool
    ensures { result ≡ names_nothing columns.now }
{
    match columns {
        Some(names) => is_none_there(names.as_slice()),
        None => false,
    }
}

/// Whether a list is empty.
pub(crate) fn is_none_there<T>(items: &[T]) -> bool
    ensures { result ≡ is_empty items.now }
{
    match items.first() {
        Some(_) => false,
        None => true,
    }
}

/// A scan of no frame, a union of nothing, an output without columns, an unpivot of no column.
fn is_void_node(frames: &[DataFrame], node: &IR) -> bool
    ensures { result ≡ is_void frames.now (node_of node.now) }
{
    match node {
        IR::DataFrameScan { frame, columns } => {
            frames.len() <= *frame as usize || is_nothing_named(columns)
        }
        IR::SimpleProjection { columns, .. } => is_none_there(columns.as_slice()),
        IR::Select { exprs, .. } => is_none_there(exprs.as_slice()),
        IR::Union { inputs } => is_none_there(inputs.as_slice()),
        IR::MapFunction { function, .. } => is_void_function(function),
        IR::Filter { .. } => false,
        IR::HStack { .. } => false,
        IR::Join { .. } => false,
        IR::Sort { .. } => false,
    }
}

/// An unpivot of no column.
fn is_void_function(function: &FunctionIR) -> bool
    ensures { result ≡ is_function_void function.now }
{
    match function {
        FunctionIR::Unpivot { on, .. } => is_none_there(on.as_slice()),
        FunctionIR::Rename { .. } => false,
    }
}

/// Whether a node is a bad one.
pub(crate) fn is_bad(
    alloc: Global,
    arena: &Arena,
    root: u32,
    n: u32,
    node: &IR,
) -> Result<bool, AllocError>
    requires { node_of node.now ≡ node_at (map node_of arena.now.nodes) n }
    ensures { IfOk result (λ holds. holds ≡ is_bad_node (plan_of arena.now) root n) }
{
    let numbers = inputs(alloc, node)?;
    let is_read = is_any_read(alloc, arena, root, n, numbers.as_slice())?;
    let is_void = is_void_node(arena.frames.as_slice(), node);
    Ok(is_any_above(numbers.as_slice(), n) || is_repeated(numbers.as_slice()) || is_read || is_void)
}
