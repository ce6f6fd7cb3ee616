//! When a sort is a bad one.

ghost use Rattle.std.specs.Prelude.{◌≡◌, ◌||◌, not, length, IfOk};
ghost use Rattle.pipe_plan.specs.Node.{node_of};
ghost use Rattle.pipe_plan.specs.Faults.{is_empty, repeats_name, are_flags, is_negative, is_bad_sort};

use crate::bad_join::is_name_repeated;
use crate::bad_node::is_none_there;
use pipe_plan::{IR, PlanSlice, SortOptions};
use pipe_schema::Text;
use std::alloc::{AllocError, Global};

/// Whether there is one flag, or one per key.
fn are_enough_flags(keys: usize, flags: &[bool]) -> bool
    ensures { result ≡ are_flags keys flags.now }
{
    flags.len() == 1 || flags.len() == keys
}

/// Whether a slice begins before the first row.
fn is_offset_negative(slice: Option<PlanSlice>) -> bool
    ensures { result ≡ is_negative slice }
{
    match slice {
        Some(slice) => slice.offset < 0,
        None => false,
    }
}

/// Whether a sort has no key, a key twice, too many or too few flags, or a negative offset.
fn are_keys_bad(alloc: Global, by: &[Text], options: &SortOptions) -> Result<bool, AllocError>
    ensures { let keys = length by.now in
        let few = not (are_flags keys options.now.descending) in
        let fewer = not (are_flags keys options.now.nulls_last) in
        let early = is_negative options.now.slice in
        let repeated = repeats_name by.now in
        IfOk result (λ holds. holds ≡ (is_empty by.now || repeated || few || fewer || early)) }
{
    let is_repeated = is_name_repeated(alloc, by)?;
    Ok(
        is_none_there(by)
            || is_repeated
            || !are_enough_flags(by.len(), options.descending.as_slice())
            || !are_enough_flags(by.len(), options.nulls_last.as_slice())
            || is_offset_negative(options.slice),
    )
}

/// Whether a node is a bad sort.
pub(crate) fn is_sort_bad(alloc: Global, node: &IR) -> Result<bool, AllocError>
    ensures { IfOk result (λ holds. holds ≡ is_bad_sort (node_of node.now)) }
{
    match node {
        IR::Sort { by, options, .. } => are_keys_bad(alloc, by.as_slice(), options),
        IR::DataFrameScan { .. }
        | IR::Filter { .. }
        | IR::SimpleProjection { .. }
        | IR::Select { .. }
        | IR::HStack { .. }
        | IR::MapFunction { .. }
        | IR::Union { .. }
        | IR::Join { .. } => Ok(false),
    }
}
