//! When a sort is a bad one: by its keys, its flags and its slice.

ghost use Rattle.std.specs.Prelude.{◌≡◌, ◌==◌, ◌||◌, length, not, IfOk};
ghost use Rattle.pipe_plan.specs.Node.{node_of};
ghost use Rattle.pipe_plan.specs.Faults.{is_empty, repeats_name, are_flags, is_negative, is_bad_sort};

use crate::bad_node::is_none_there;
use crate::names::is_name_repeated;
use pipe_plan::{IR, PlanSlice, SortOptions};
use pipe_schema::{List, Text};
use std::alloc::AllocError;

/// Whether there is one flag, or one per key.
fn are_flags_counted(keys: usize, flags: &[bool]) -> bool
    ensures { result ≡ are_flags keys flags.now }
{
    flags.len() == 1 || flags.len() == keys
}

/// Whether a slice has a negative offset.
fn is_offset_negative(slice: &Option<PlanSlice>) -> bool
    ensures { result ≡ is_negative slice.now }
{
    match slice {
        Some(slice) => slice.offset < 0,
        None => false,
    }
}

/// Whether a sort is a bad one.
fn is_sort_bad(input: u32, by: &List<Text>, options: &SortOptions) -> Result<bool, AllocError>
    ensures { let sort = node_of (IR.Sort input by.now options.now) in
        IfOk result (λ holds. holds ≡ is_bad_sort sort) }
{
    let names = by.as_slice();
    let is_repeated = is_name_repeated(names)?;
    let are_counted = are_flags_counted(names.len(), options.descending.as_slice());
    let are_nulls_counted = are_flags_counted(names.len(), options.nulls_last.as_slice());
    Ok(
        is_none_there(names)
            || is_repeated
            || !are_counted
            || !are_nulls_counted
            || is_offset_negative(&options.slice),
    )
}

/// Whether a node is a bad sort.
pub(crate) fn is_node_bad_sort(node: &IR) -> Result<bool, AllocError>
    ensures { IfOk result (λ holds. holds ≡ is_bad_sort (node_of node.now)) }
{
    match node {
        IR::Sort { input, by, options } => is_sort_bad(*input, by, options),
        IR::DataFrameScan { .. } => Ok(false),
        IR::Filter { .. } => Ok(false),
        IR::SimpleProjection { .. } => Ok(false),
        IR::Select { .. } => Ok(false),
        IR::HStack { .. } => Ok(false),
        IR::MapFunction { .. } => Ok(false),
        IR::Union { .. } => Ok(false),
        IR::Join { .. } => Ok(false),
    }
}
