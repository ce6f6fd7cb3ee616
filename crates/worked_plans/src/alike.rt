//! Whether `check_plan` tells of a plan what the plain program tells.

ghost use Rattle.std.specs.Prelude.{◌<◌, ◌^◌, length};

use pipe_check::check_plan;
use pipe_plain::{plan_fault, schema};
use pipe_plan::{Arena, PipeError};
use pipe_schema::Field;
use std::alloc::{AllocError, Global};

/// Whether two faults are the same.
fn is_same_fault(a: &PipeError, b: &PipeError) -> bool {
    match (a, b) {
        (PipeError::BadNode(m), PipeError::BadNode(n))
        | (PipeError::TypeMismatch(m), PipeError::TypeMismatch(n))
        | (PipeError::BadJoin(m), PipeError::BadJoin(n))
        | (PipeError::BadSort(m), PipeError::BadSort(n)) => m == n,
        (PipeError::UnknownColumn(m, a), PipeError::UnknownColumn(n, b))
        | (PipeError::DuplicateName(m, a), PipeError::DuplicateName(n, b)) => {
            m == n && a.is_same(b)
        }
        _ => false,
    }
}

/// Whether two schemas have the same fields.
fn is_same_schema(a: &[Field], b: &[Field]) -> bool {
    a.len() == b.len()
        && a.iter()
            .zip(b.iter())
            .all(|(x, y)| x.name.is_same(&y.name) && x.dtype == y.dtype)
}

/// Whether a plan of a few nodes is told alike.
pub(crate) fn is_told_alike(alloc: Global, arena: &Arena, root: u32) -> Result<bool, AllocError>
    requires { length arena.now.nodes < 2 ^ 32 }
{
    let plain = plan_fault(alloc, arena, root)?;
    match check_plan(alloc, arena, root) {
        Err(PipeError::Memory) => Err(AllocError),
        Err(fault) => match plain {
            Some(told) => Ok(is_same_fault(&fault, &told)),
            None => Ok(false),
        },
        Ok(plan) => {
            let fields = schema(alloc, arena, root)?;
            let is_same = is_same_schema(plan.schema(plan.root()).fields(), fields.as_slice());
            Ok(is_same && plain.is_none())
        }
    }
}
