//! How many nodes are under a root.

ghost use Rattle.std.specs.Prelude.{◌≡◌, ◌<◌, map, length, IfOk};
ghost use Rattle.pipe_plan.specs.Node.{node_of};
ghost use Rattle.pipe_rules.specs.Sizes.{count_under as nodes_counted};

use pipe_check::nodes_under;
use pipe_plan::IR;
use std::alloc::{AllocError, Global};

/// How many nodes are under a root.
pub(crate) fn count_under(alloc: Global, nodes: &[IR], root: usize) -> Result<usize, AllocError>
    requires { root < length nodes.now }
    ensures { IfOk result (λ count. count ≡ nodes_counted (map node_of nodes.now) root) }
{
    let marks = nodes_under(alloc, nodes, root)?;
    let mut count = 0;
    for is_under in marks.as_slice() {
        if *is_under {
            count += 1;
        }
    }
    Ok(count)
}
