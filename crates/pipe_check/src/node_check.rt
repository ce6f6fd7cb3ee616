//! The check of one node: its output schema, or the least of its errors.

ghost use Rattle.std.specs.Prelude.{◌≡◌, ◌<◌, ℕ, true, false, None, Some, length, if◌then◌else◌, IfOk, IfErr, OnOk};
ghost use Rattle.pipe_plan.specs.Node.{node_of};
ghost use Rattle.pipe_plan.specs.Faults.{is_empty, unknown_in, is_mistyped, is_bad_join, is_bad_sort, told, told_name};
ghost use Rattle.pipe_check.specs.Kept.{kept_schema};
ghost use Rattle.pipe_check.specs.Checked.{MemoryOr};
ghost use Rattle.pipe_check.specs.Checking.{IsFrameFull, AreInputsFull, AreRead, is_bad_by, fault_by, made_schema};

use crate::bad_join::is_join_bad;
use crate::bad_node::is_node_bad;
use crate::bad_sort::is_sort_bad;
use crate::duplicate_name::output_schema;
use crate::type_mismatch::is_node_mistyped;
use crate::unknown_column::unknown_column;
use pipe_frame::DataFrame;
use pipe_plan::{IR, PipeError};
use pipe_schema::{Schema, TryClone};
use std::alloc::Global;

/// The fault that a node reads a name that its input lacks.
fn check_columns(
    frames: &[DataFrame],
    schemas: &[Option<Schema>],
    n: u32,
    node: &IR,
) -> Result<(), PipeError>
    ensures ok { let name = unknown_in frames.now (kept_schema schemas.now) (node_of node.now) in
        OnOk result (name ≡ None) }
    ensures err { let name = unknown_in frames.now (kept_schema schemas.now) (node_of node.now) in
        IfErr result (MemoryOr (told_name (PipeError.UnknownColumn n) name)) }
{
    match unknown_column(frames, schemas, node) {
        Some(name) => Err(PipeError::UnknownColumn(n, name.try_clone()?)),
        None => Ok(()),
    }
}

/// An error, where there is one.
fn refuse(holds: bool, error: PipeError) -> Result<(), PipeError>
    ensures ok { OnOk result (holds ≡ false) }
    ensures err { IfErr result (λ e. told holds error ≡ Some e) }
{
    if holds { Err(error) } else { Ok(()) }
}

/// The fault that a node is a bad one. Else its inputs are marked as read.
#[tactic(auto, using(crate::proofs::Parts::told_rules))]
fn check_inputs(
    alloc: Global,
    frames: &[DataFrame],
    read: &mut [bool],
    n: u32,
    node: &IR,
) -> Result<(), PipeError>
    requires { n < length read.old }
    ensures ok { OnOk result (is_bad_by read.old frames.now n (node_of node.now) ≡ false) }
    ensures full { OnOk result (IsFrameFull frames.now (node_of node.now)) }
    ensures read { OnOk result (AreRead true read.old read.new (node_of node.now)) }
    ensures err { let is_bad = is_bad_by read.old frames.now n (node_of node.now) in
        IfErr result (MemoryOr (told is_bad (PipeError.BadNode n))) }
{
    let is_bad = is_node_bad(alloc, frames, read, n, node)?;
    refuse(is_bad, PipeError::BadNode(n))
}

/// The fault that a node is mistyped.
#[tactic(auto, using(crate::proofs::Parts::told_rules))]
fn check_types(schemas: &[Option<Schema>], n: u32, node: &IR) -> Result<(), PipeError>
    ensures ok { OnOk result (is_mistyped (kept_schema schemas.now) (node_of node.now) ≡ false) }
    ensures err { let holds = is_mistyped (kept_schema schemas.now) (node_of node.now) in
        IfErr result (MemoryOr (told holds (PipeError.TypeMismatch n))) }
{
    let is_mistyped = is_node_mistyped(schemas, node);
    refuse(is_mistyped, PipeError::TypeMismatch(n))
}

/// The fault that a node is a bad join.
#[tactic(auto, using(crate::proofs::Parts::told_rules))]
fn check_join(alloc: Global, n: u32, node: &IR) -> Result<(), PipeError>
    ensures ok { OnOk result (is_bad_join (node_of node.now) ≡ false) }
    ensures err { let holds = is_bad_join (node_of node.now) in
        IfErr result (MemoryOr (told holds (PipeError.BadJoin n))) }
{
    let is_bad = is_join_bad(alloc, node)?;
    refuse(is_bad, PipeError::BadJoin(n))
}

/// The fault that a node is a bad sort.
#[tactic(auto, using(crate::proofs::Parts::told_rules))]
fn check_sort(alloc: Global, n: u32, node: &IR) -> Result<(), PipeError>
    ensures ok { OnOk result (is_bad_sort (node_of node.now) ≡ false) }
    ensures err { let holds = is_bad_sort (node_of node.now) in
        IfErr result (MemoryOr (told holds (PipeError.BadSort n))) }
{
    let is_bad = is_sort_bad(alloc, node)?;
    refuse(is_bad, PipeError::BadSort(n))
}

/// The output schema of a node under the root, or the least of its errors. Its inputs are marked as read.
#[tactic(auto, using(crate::proofs::Full::full_rules, crate::proofs::Parts::part_rules))]
fn check_node(
    alloc: Global,
    frames: &[DataFrame],
    schemas: &[Option<Schema>],
    read: &mut [bool],
    n: u32,
    node: &IR,
) -> Result<Schema, PipeError>
    requires there { n < length read.old }
    requires full { let kept = kept_schema schemas.now in
        AreInputsFull read.old frames.now kept n (node_of node.now) }
    ensures full { IfOk result (λ schema. is_empty schema ≡ false) }
    ensures schema { let made = made_schema frames.now schemas.now (node_of node.now) in
        IfOk result (λ schema. schema ≡ made) }
    ensures read { OnOk result (AreRead true read.old read.new (node_of node.now)) }
    ensures ok { let fault = fault_by read.old frames.now schemas.now n (node_of node.now) in
        OnOk result (fault ≡ None) }
    ensures err { let fault = fault_by read.old frames.now schemas.now n (node_of node.now) in
        IfErr result (MemoryOr fault) }
{
    check_inputs(alloc, frames, read, n, node)?;
    check_columns(frames, schemas, n, node)?;
    let schema = output_schema(alloc, frames, schemas, n, node)?;
    check_types(schemas, n, node)?;
    check_join(alloc, n, node)?;
    check_sort(alloc, n, node)?;
    Ok(schema)
}

/// The schema of a node that is under the root and has no fault, none of a node that isn't under it.
pub(crate) fn checked_schema(
    alloc: Global,
    frames: &[DataFrame],
    schemas: &[Option<Schema>],
    read: &mut [bool],
    is_reached: bool,
    n: u32,
    node: &IR,
) -> Result<Option<Schema>, PipeError>
    requires there { n < length read.old }
    requires full { let kept = kept_schema schemas.now in
        is_reached ≡ true → AreInputsFull read.old frames.now kept n (node_of node.now) }
    ensures schema { let made = made_schema frames.now schemas.now (node_of node.now) in
        IfOk result (λ schema. schema ≡ (if is_reached then Some made else None)) }
    ensures full { let made = made_schema frames.now schemas.now (node_of node.now) in
        IfOk result (λ schema. is_reached ≡ true → is_empty made ≡ false) }
    ensures read { OnOk result (AreRead is_reached read.old read.new (node_of node.now)) }
    ensures ok { let fault = fault_by read.old frames.now schemas.now n (node_of node.now) in
        OnOk result ((if is_reached then fault else None) ≡ None) }
    ensures err { let fault = fault_by read.old frames.now schemas.now n (node_of node.now) in
        IfErr result (MemoryOr (if is_reached then fault else None)) }
{
    if is_reached {
        Ok(Some(check_node(alloc, frames, schemas, read, n, node)?))
    } else {
        Ok(None)
    }
}
