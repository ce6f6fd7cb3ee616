//! What several lanes share.

ghost use Rattle.std.specs.Prelude.{◌≡◌, IfOk};
ghost use Rattle.pipe_ops.specs.Exprs.{values_in};

use pipe_schema::List;
use std::alloc::{AllocError, Global};
use std::sync::Arc;

/// The same shared values, for a further lane.
pub(crate) fn shared_again<T: Drop>(
    alloc: Global,
    shared: &[Arc<T>],
) -> Result<List<Arc<T>>, AllocError>
    ensures { IfOk result (λ again. values_in again ≡ values_in shared.now) }
{
    let mut again = List::new(alloc);
    for value in shared {
        again.push(value.clone()?)?;
    }
    Ok(again)
}
