//! The settings of joins.

ghost use Rattle.std.specs.Prelude.{◌≡◌, ◌<◌, None, length, slice_index_or};

use pipe_table::JoinSpec;
use std::sync::Arc;

/// The settings of a node, where it is a join.
pub(crate) fn settings_of(specs: &[Option<Arc<JoinSpec>>], n: u32) -> &Option<Arc<JoinSpec>>
    requires { n < length specs.now }
    ensures { result.now ≡ slice_index_or specs.now n None }
{
    &specs[n as usize]
}
