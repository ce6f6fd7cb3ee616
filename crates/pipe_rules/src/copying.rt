//! Copies of nodes with other inputs.

ghost use Rattle.std.specs.Prelude.{◌≡◌, IfOk};
ghost use Rattle.pipe_plan.specs.Node.{node_of};
ghost use Rattle.pipe_plan.specs.Under.{inputs_of};
ghost use Rattle.pipe_rules.specs.Placed.{first_input, second_input};
ghost use Rattle.pipe_rules.specs.Renumbered.{with_inputs, first_or as first_or_number, second_or as second_or_number};

use pipe_expr::{copy_exprs, copy_named_exprs};
use pipe_plan::IR;
use pipe_schema::{List, Text, TryClone};
use std::alloc::{AllocError, Global};

/// The inputs of a node, in the order of its members.
pub fn inputs(alloc: Global, node: &IR) -> Result<Vec<u32>, AllocError>
    ensures { IfOk result (λ numbers. numbers.items ≡ inputs_of (node_of node.now)) }
{
    match node {
        IR::DataFrameScan { .. } => Ok(Vec::new(alloc)),
        IR::Filter { input, .. } => Ok(vec![in alloc; *input]?),
        IR::SimpleProjection { input, .. } => Ok(vec![in alloc; *input]?),
        IR::Select { input, .. } => Ok(vec![in alloc; *input]?),
        IR::HStack { input, .. } => Ok(vec![in alloc; *input]?),
        IR::MapFunction { input, .. } => Ok(vec![in alloc; *input]?),
        IR::Union { inputs } => Ok(inputs.as_slice().to_vec(alloc)?),
        IR::Join { left, right, .. } => Ok(vec![in alloc; *left, *right]?),
        IR::Sort { input, .. } => Ok(vec![in alloc; *input]?),
    }
}

/// The first of some inputs.
fn first(inputs: &[u32]) -> u32
    ensures { result ≡ first_input inputs.now }
{
    match inputs.first() {
        Some(input) => *input,
        None => 0,
    }
}

/// The second of some inputs.
fn second(inputs: &[u32]) -> u32
    ensures { result ≡ second_input inputs.now }
{
    match inputs.get(1) {
        Some(input) => *input,
        None => 0,
    }
}

/// The first of some inputs, or another number.
pub(crate) fn first_or(n: u32, inputs: &[u32]) -> u32
    ensures { result ≡ first_or_number n inputs.now }
{
    match inputs.first() {
        Some(input) => *input,
        None => n,
    }
}

/// The second of some inputs, else the first, or another number.
pub(crate) fn second_or(n: u32, inputs: &[u32]) -> u32
    ensures { result ≡ second_or_number n inputs.now }
{
    match inputs.get(1) {
        Some(input) => *input,
        None => first_or(n, inputs),
    }
}

/// A copy of the columns that a scan names, if it names any.
fn copy_names(names: &Option<List<Text>>) -> Result<Option<List<Text>>, AllocError>
    ensures { IfOk result (λ copy. copy ≡ names.now) }
{
    match names {
        Some(names) => Ok(Some(names.try_clone()?)),
        None => Ok(None),
    }
}

/// A copy of a node with these inputs in place of its own.
pub(crate) fn copy_over(alloc: Global, node: &IR, inputs: &[u32]) -> Result<IR, AllocError>
    ensures { IfOk result (λ copy. node_of copy ≡ with_inputs (node_of node.now) inputs.now) }
{
    match node {
        IR::DataFrameScan { frame, columns } => Ok(IR::DataFrameScan {
            frame: *frame,
            columns: copy_names(columns)?,
        }),
        IR::Filter { predicate, .. } => Ok(IR::Filter {
            input: first(inputs),
            predicate: predicate.try_clone()?,
        }),
        IR::SimpleProjection { columns, .. } => Ok(IR::SimpleProjection {
            input: first(inputs),
            columns: columns.try_clone()?,
        }),
        IR::Select { exprs, .. } => Ok(IR::Select {
            input: first(inputs),
            exprs: copy_named_exprs(alloc, exprs.as_slice())?,
        }),
        IR::HStack { exprs, .. } => Ok(IR::HStack {
            input: first(inputs),
            exprs: copy_named_exprs(alloc, exprs.as_slice())?,
        }),
        IR::MapFunction { function, .. } => Ok(IR::MapFunction {
            input: first(inputs),
            function: function.try_clone()?,
        }),
        IR::Union { .. } => Ok(IR::Union {
            inputs: List::from_vec(inputs.to_vec(alloc)?),
        }),
        IR::Join {
            left_on,
            right_on,
            options,
            ..
        } => Ok(IR::Join {
            left: first(inputs),
            right: second(inputs),
            left_on: copy_exprs(alloc, left_on.as_slice())?,
            right_on: copy_exprs(alloc, right_on.as_slice())?,
            options: options.try_clone()?,
        }),
        IR::Sort { by, options, .. } => Ok(IR::Sort {
            input: first(inputs),
            by: by.try_clone()?,
            options: options.try_clone()?,
        }),
    }
}
