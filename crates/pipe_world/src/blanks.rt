//! Lists of nothing.

ghost use Rattle.std.specs.Prelude.{◌≡◌, [], replicate, IfOk};

use pipe_schema::List;
use std::alloc::{AllocError, Global};

/// So many empty lists.
pub(crate) fn empty_lists<T: Drop>(alloc: Global, n: usize) -> Result<Vec<List<T>>, AllocError>
    ensures { IfOk result (λ lists. lists.items ≡ replicate n []) }
{
    let mut lists = Vec::new(alloc);
    for _ in 0..n {
        lists.push(List::new(alloc))?;
    }
    Ok(lists)
}
